// How many records a sequence has, and how many bytes their arguments have.
ghost use Rattle.std.specs.Prelude.{◌≡◌, ◌≤◌};
ghost use Rattle.translate_size.specs.Size.{parameters_size, argument_size, most, SequenceHere, CommandHere, SequenceSized, CommandSized};

use manifest_accessors::arguments::{Args, read_one};
use manifest_accessors::heads::open;
use rules::controller::Controller;
use rules::program_format::{ENTRY_BYTES, SIZE_BYTES, SOURCE_BYTES};
use rules::tables::Argument;
use rules_kinds::{holds_alternatives, holds_sequence, kind_of};
use rules_tables::Table;
use run_slots::params::either;

// The bytes of a source, a digest and a size, each with its key and length.
const SOURCE_ENTRY: usize = ENTRY_BYTES + SOURCE_BYTES;

const DIGEST_ENTRY: usize = ENTRY_BYTES + Controller::DIGEST_BYTES;

const SIZE_ENTRY: usize = ENTRY_BYTES + SIZE_BYTES;

// Records, the bytes of their arguments, and the place after what was read.
#[derive(Clone, Copy)]
pub struct Size {
    pub next: usize,
    pub records: usize,
    pub arguments: usize,
}

// The bytes of the parameters that are set: key, length and value.
fn parameters_size(a: Args) -> usize
    requires { parameters_size a ≤ most }
    ensures { result ≡ parameters_size a }
{
    let p = a.params;
    let text = either(p.uri, p.length, 0);
    let uri = either(p.uri, ENTRY_BYTES, 0);
    let source = either(p.source, SOURCE_ENTRY, 0);
    let digest = either(p.digest, DIGEST_ENTRY, 0);
    let size = either(p.size, SIZE_ENTRY, 0);
    text + uri + source + digest + size
}

// How many bytes an argument of that kind has in its record.
fn argument_size(kind: Argument, a: Args) -> usize
    requires { argument_size kind a ≤ most }
    ensures { result ≡ argument_size kind a }
{
    match kind {
        Argument::Sixteen => Controller::CLASS_BYTES,
        Argument::Parameters => parameters_size(a),
        Argument::Nil | Argument::Index | Argument::Alternatives | Argument::Sequence => 0,
    }
}

// The sequence at `at`; it and those in it may be `depth` deep.
#[cycle(size_command_size_sequence)]
pub fn size_sequence(s: &[u8], table: &Table, depth: usize, at: usize) -> Size
    requires { SequenceHere s.now table.now depth at }
    ensures { (j : SequenceHere s.now table.now depth at) → SequenceSized j.place.seq j.place.to result }
{
    let h = open(s, at);
    let mut now = Size {
        next: h.next,
        records: 0,
        arguments: 0,
    };
    for _ in 0..h.value / 2 {
        let c = size_command(s, table, depth - 1, now.next);
        now = Size {
            next: c.next,
            records: now.records + c.records,
            arguments: now.arguments + c.arguments,
        };
    }
    now
}

// The command at `at`; the sequences that it holds may be `depth` deep.
#[cycle(size_command_size_sequence)]
pub fn size_command(s: &[u8], table: &Table, depth: usize, at: usize) -> Size
    requires { CommandHere s.now table.now depth at }
    ensures { (j : CommandHere s.now table.now depth at) → CommandSized j.place.cmd j.place.to result }
{
    let c = open(s, at);
    let code = c.value;
    let kind = kind_of(table, code);
    if holds_sequence(kind) {
        let b = open(s, c.next);
        return size_sequence(s, table, depth, b.next);
    }
    if holds_alternatives(kind) {
        let h = open(s, c.next);
        // each alternative but the last has a jump after it
        let mut now = Size {
            next: h.next,
            records: h.value - 1,
            arguments: 0,
        };
        for _ in 0..h.value {
            let b = open(s, now.next);
            let r = size_sequence(s, table, depth, b.next);
            now = Size {
                next: r.next,
                records: now.records + r.records,
                arguments: now.arguments + r.arguments,
            };
        }
        return now;
    }
    let a = read_one(s, code, c.next);
    Size {
        next: a.next,
        records: 1,
        arguments: argument_size(kind, a),
    }
}
