// Records of commands in a program, one after the other: whether each is well formed, and where the last one ends.
#![tactic(auto)]

ghost use Rattle.std.specs.Prelude.{◌≡◌, ◌≤◌, length, drop};
ghost use Rattle.rules.specs.Limits.{limits};
ghost use Rattle.rules.specs.Tables.{by_number};
ghost use Rattle.rules.specs.ProgramTest as Rule;
ghost use Rattle.program_records.specs.Records.{records_are};

use byte_buffer::wide;
use program_heads::{jump_fits, record_end};
use program_record::command_fits;
use rules::answers::Group;
use rules::program_format::CODE;
use rules_tables::{CODES, Table};

// The place after the records, and how many of them are commands and not jumps.
#[derive(Clone, Copy)]
pub struct Records {
    pub next: usize,
    pub commands: usize,
}

// `total` records from `at` on; none if one is not well formed.
pub fn test_records(
    p: &[u8],
    table: &Table,
    at: usize,
    group: Group,
    components: usize,
    total: usize,
) -> Option<Records>
    requires { (at ≤ length p.now) × (table.now ≡ by_number) × (total ≤ limits.records) }
    ensures { result ≡ records_are (length p.now) (Rule.records_in group components total total 0 (drop at p.now)) }
{
    let mut next = at;
    let mut jumps = 0;
    for n in 0..total {
        let from = next;
        next = record_end(p, from)?;
        if wide(p[from + CODE]) < CODES {
            if !command_fits(p, table, from, next, group, components, total, n) {
                return None;
            }
        } else {
            if !jump_fits(p, from, next, total, n) {
                return None;
            }
            jumps += 1;
        }
    }
    Some(Records {
        next,
        commands: total - jumps,
    })
}
