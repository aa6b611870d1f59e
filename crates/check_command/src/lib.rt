// The head of a command: its code, whether it may stand there, and what stands before the sequences that it holds.
#![tactic(auto)]

ghost use Rattle.std.specs.Prelude.{◌≡◌, ◌/◌, ◌%◌, ◌≤◌, ◌<◌, eqb, length};
ghost use Rattle.rules.specs.Limits.{section_count};
ghost use Rattle.rules.specs.Tables.{by_number, weight_of};
ghost use Rattle.cbor_reading.specs.Reading.{reading};
ghost use Rattle.check_command.specs.Command.{command_start, Section};

use cbor_reading::{Reading, refuse};
use check_argument::{number, read_argument};
use rules::answers::{Fault, Refusal};
use rules::codes;
use rules::controller::Controller;
use rules_lookup::look_up;
use rules_tables::Table;

// Whether a set of sections has the one with that key; common's sequence goes by the key of common.
fn has_section(sections: u8, section: usize) -> bool
    requires { Section section }
    ensures { result ≡ eqb (sections / weight_of section % 2) 1 }
{
    match section {
        codes::PAYLOAD_FETCH => sections / rules_tables::PAYLOAD_FETCH % 2 == 1,
        codes::INSTALL => sections / rules_tables::INSTALL % 2 == 1,
        codes::VALIDATE => sections / rules_tables::VALIDATE % 2 == 1,
        codes::LOAD => sections / rules_tables::LOAD % 2 == 1,
        codes::RUN_SECTION => sections / rules_tables::RUN % 2 == 1,
        _ => sections / rules_tables::COMMON % 2 == 1,
    }
}

// A command's code, and what stands before the sequences that it holds: how many they are, and where the first is. It weighs
// `weight`, the commands before it `commands`.
pub fn open_command(
    s: &[u8],
    table: &Table,
    components: usize,
    section: usize,
    weight: usize,
    commands: usize,
    end: usize,
    at: usize,
) -> Result<Reading, Fault>
    requires { (end ≤ length s.now) × (table.now ≡ by_number) × Section section × (weight < section_count) }
    ensures { result ≡ reading (λ k. k) (command_start s.now components section weight commands end at) }
{
    let c = number(s, end, at)?;
    let Some(row) = look_up(table, c.value) else {
        return refuse(Refusal::UnknownCommand, at);
    };
    if !has_section(row.sections, section) {
        return refuse(Refusal::NotAllowed, at);
    }
    let most = Controller::COMMANDS - weight;
    if most < commands {
        return refuse(Refusal::TooManyCommands, at);
    }
    read_argument(s, table, components, row.argument, end, c.at)
}
