// The program test: refusal 97, or what a run of the program needs.
ghost use Rattle.std.specs.Prelude.{◌≡◌, ◌≤◌};
ghost use Rattle.std.proofs.Math.Option.{some};
ghost use Rattle.rules.specs.ProgramTest as Rule;
ghost use Rattle.program_test.specs.Test.{start_fits, TestedAs};

use byte_buffer::{four, two, wide};
use component_ids::repeated_one;
use program_names::test_names;
use program_records::test_records;
use rules::answers::Group;
use rules::controller::{Controller, PLACES, Places};
use rules::program_format::{
    CODE, MARK, MARK_2, START, START_BYTES, START_COMPONENTS, START_GROUP, START_NUMBER,
    START_RECORDS,
};
use rules_tables::tables;

const START_CODE: u8 = START as u8;

// The group and the number, how many components and records there are, where the first record is, and the places of the components'
// identifiers.
#[derive(Clone, Copy)]
pub struct Tested {
    pub group: Group,
    pub number: usize,
    pub components: usize,
    pub records: usize,
    pub from: usize,
    pub ids: Places,
}

// Whether the start is well formed: its mark, the group, and how many components and records it names.
fn start_fits(p: &[u8]) -> bool
    ensures { result ≡ start_fits p.now }
{
    if Controller::PROGRAM_BYTES < p.len() || p.len() < START_BYTES {
        return false;
    }
    let components = wide(p[START_COMPONENTS]);
    p[0] == MARK
        && p[1] == MARK_2
        && p[CODE] == START_CODE
        && p[START_GROUP] <= 1
        && 1 <= components
        && components <= Controller::COMPONENTS
        && two(p, START_RECORDS) <= Controller::RECORDS
}

fn group_of(mark: u8) -> Group
    requires { mark ≤ 1 }
    ensures { Rule.group_in mark ≡ some result }
{
    if mark == 0 {
        Group::Install
    } else {
        Group::Boot
    }
}

// None where the program is refused.
pub fn test_program(p: &[u8]) -> Option<Tested>
    ensures { TestedAs p.now (Rule.program_in p.now) result }
{
    if !start_fits(p) {
        return None;
    }
    let group = group_of(p[START_GROUP]);
    let components = wide(p[START_COMPONENTS]);
    let records = two(p, START_RECORDS);
    let mut ids = [0usize; PLACES];
    let from = test_names(p, START_BYTES, components, &mut ids)?;
    if repeated_one(p, &ids, components).is_some() {
        return None;
    }
    let table = tables();
    let read = test_records(p, &table, from, group, components, records)?;
    if read.next != p.len() || Controller::COMMANDS < read.commands {
        return None;
    }
    Some(Tested {
        group,
        number: four(p, START_NUMBER),
        components,
        records,
        from,
        ids,
    })
}
