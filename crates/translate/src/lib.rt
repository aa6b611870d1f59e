// Translate: the program of an accepted envelope's group, written to lent room.
#![tactic(auto)]

ghost use Rattle.std.specs.Prelude.{length};
ghost use Rattle.rules.specs.Program as Rule;
ghost use Rattle.manifest_accessors.specs.Accepted.{Accepted};
ghost use Rattle.translate.specs.Translate.{Translates};

use check_envelope::check;
use manifest_plan::plan;
use rules::answers::{Fault, Group, Refusal};
use rules::controller::{PLAN_SEQUENCES, Places, SectionPlaces};
use rules::program_format::{RECORD_BYTES, START_BYTES};
use rules_tables::tables;
use translate_plan::{size_plan, write_plan};
use translate_start::names::{size_names, write_names};
use translate_start::start::put_start;

// The program of an envelope that check has accepted, by what check reported: how long it is.
fn translate_checked(
    s: &[u8],
    group: Group,
    number: usize,
    n: usize,
    ids: &Places,
    sections: &SectionPlaces,
    room: &mut [u8],
) -> Result<usize, Fault>
    requires { Accepted s.now number n ids.now sections.now }
    ensures { Translates (Rule.translate s.now group (length room.old)) result room.old room.new }
{
    let table = tables();
    let mut starts = [0usize; PLAN_SEQUENCES];
    let total = plan(group, sections, &mut starts);
    let size = size_plan(s, &table, &starts, total);
    let names = size_names(ids, n);
    let length = START_BYTES + names + RECORD_BYTES * size.records + size.arguments;
    if room.len() < length {
        return Err(Fault {
            refusal: Refusal::ShortRoom,
            at: 0,
        });
    }
    put_start(room, group, number, n, size.records);
    let at = write_names(s, ids, n, room, START_BYTES);
    write_plan(s, &table, &starts, total, at, room);
    Ok(length)
}

// Translates the envelope s for a group into the room. On a refusal the room is as lent; else the program is at its start, and
// its length the answer.
pub fn translate(s: &[u8], group: Group, room: &mut [u8]) -> Result<usize, Fault>
    ensures { Translates (Rule.translate s.now group (length room.old)) result room.old room.new }
{
    let report = check(s)?;
    // copies: to lend the report's own moves it whole, by memcpy, and the library for C needs nothing from outside but memset
    let ids = report.ids;
    let sections = report.sections;
    translate_checked(
        s,
        group,
        report.number,
        report.components,
        &ids,
        &sections,
        room,
    )
}
