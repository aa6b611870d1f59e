// Sequences hold commands and commands hold sequences.
#![tactic(auto)]

ghost use Rattle.std.specs.Prelude.{◌≡◌, ◌+◌, ◌*◌, ◌≤◌, ◌<◌, length};
ghost use Rattle.rules.specs.Limits.{section_count};
ghost use Rattle.rules.specs.Tables.{by_number};
ghost use Rattle.rules.specs.Manifest.{count, count_cmd};
ghost use Rattle.rules.specs.Check as Check;
ghost use Rattle.cbor_reading.specs.Reading.{reading};
ghost use Rattle.check_command.specs.Command.{Section};
ghost use Rattle.check_sequence.specs.Command.{command_at};

use cbor_reading::{Reading, item, refuse};
use check_command::open_command;
use rules::answers::{Fault, Refusal};
use rules::controller::Controller;
use rules_tables::Table;

// The sequence at `at`, whose commands weigh `weight` each, after commands that weigh `commands`; it and those in it may be `depth` deep.
#[cycle(check_command_check_sequence)]
pub fn check_sequence(
    s: &[u8],
    table: &Table,
    components: usize,
    section: usize,
    weight: usize,
    depth: usize,
    commands: usize,
    end: usize,
    at: usize,
) -> Result<Reading, Fault>
    requires { (end ≤ length s.now) × (table.now ≡ by_number) × Section section × (weight < section_count) }
    ensures { result ≡ reading (λ a. commands + weight * count a) (Check.sequence_at s.now components section weight depth commands end at) }
{
    let most = 2 * Controller::SEQUENCE_COMMANDS;
    let h = item(s, end, at, cbor::ARRAY, 0, most)?;
    if h.value % 2 != 0 {
        return refuse(Refusal::Malformed, at);
    }
    if depth == 0 {
        return refuse(Refusal::TooDeep, at);
    }
    let inner = depth - 1;
    let count = h.value / 2;
    let mut p = h.at;
    let mut sum = commands;
    for _ in 0..count {
        let c = check_command(s, table, components, section, weight, inner, sum, end, p)?;
        p = c.at;
        sum = c.value;
    }
    Ok(Reading { at: p, value: sum })
}

// The command at `at`, likewise; the sequences that it holds may be `depth` deep.
#[cycle(check_command_check_sequence)]
fn check_command(
    s: &[u8],
    table: &Table,
    components: usize,
    section: usize,
    weight: usize,
    depth: usize,
    commands: usize,
    end: usize,
    at: usize,
) -> Result<Reading, Fault>
    requires { (end ≤ length s.now) × (table.now ≡ by_number) × Section section × (weight < section_count) }
    ensures { result ≡ reading (λ c. commands + weight * count_cmd c) (command_at s.now components section weight depth commands end at) }
{
    let o = open_command(s, table, components, section, weight, commands, end, at)?;
    let count = o.value;
    let mut p = o.at;
    let mut sum = commands + weight;
    for _ in 0..count {
        let b = item(s, end, p, cbor::BYTES, 0, Controller::LARGEST_NUMBER)?;
        let from = b.at;
        let to = from + b.value;
        let r = check_sequence(s, table, components, section, weight, depth, sum, to, from)?;
        if r.at != to {
            return refuse(Refusal::NotCbor, r.at);
        }
        p = to;
        sum = r.value;
    }
    Ok(Reading { at: p, value: sum })
}
