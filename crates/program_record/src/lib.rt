// One record of a command in a program: whether it is well formed.
#![tactic(auto)]

ghost use Rattle.std.specs.Prelude.{◌≡◌, ◌+◌, ◌≤◌, ◌<◌, length, get_or};
ghost use Rattle.rules.specs.ProgramFormat.{code_from, record_size};
ghost use Rattle.rules.specs.Tables.{codes, by_number};
ghost use Rattle.rules.specs.Got.{accepted};
ghost use Rattle.program_record.specs.Record.{command_at};

use byte_buffer::{two, wide};
use program_arguments::{allows, argument_fits, target_fits};
use rules::answers::Group;
use rules::program_format::{CODE, COMPONENT, RECORD_BYTES, TARGET};
use rules_lookup::entry_at;
use rules_tables::Table;

// Whether record n of `total`, from `at` to `next`, whose code is one of the table's, is a command that is well formed.
pub fn command_fits(
    p: &[u8],
    table: &Table,
    at: usize,
    next: usize,
    group: Group,
    components: usize,
    total: usize,
    n: usize,
) -> bool
    requires { (at + record_size ≤ next) × (next ≤ length p.now) × (table.now ≡ by_number) × (get_or p.now (at + code_from) 0 < codes) }
    ensures { result ≡ accepted (command_at group components total n p.now at next) }
{
    let entry = entry_at(table, wide(p[at + CODE]));
    allows(entry.sections, group)
        && wide(p[at + COMPONENT]) < components
        && argument_fits(p, entry.kind, at + RECORD_BYTES, next, components)
        && target_fits(entry.condition, two(p, at + TARGET), n, total)
}
