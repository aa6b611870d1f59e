// The argument of a record, written to lent room. Each function gives the place after what it wrote.
#![tactic(auto)]

ghost use Rattle.std.specs.Prelude.{[], ◌∷◌, ◌+◌, ◌-◌, ◌≤◌, ◌<◌, length};
ghost use Rattle.rules.specs.Bytes.{be4};
ghost use Rattle.rules.specs.Program.{entry, param_bytes};
ghost use Rattle.run_slots.specs.Params.{optional, meaning, Fit};
ghost use Rattle.manifest_accessors.specs.Arguments.{Within};
ghost use Rattle.translate_argument.specs.Argument.{Filled, string_entry, argument_of, ArgumentFits};
ghost use Rattle.rules.specs.Commands.{source_key, size_key};

use byte_buffer::{copy, put_u32};
use manifest_accessors::arguments::Args;
use rules::codes;
use rules::controller::Controller;
use rules::program_format::{ENTRY_BYTES, SIZE_BYTES, SOURCE_BYTES};
use rules::tables::Argument;
use rules_kinds::kind_of;
use rules_tables::Table;

// The URI or the digest under that key: the n bytes of s from `from` on; 0 is unset.
fn put_string(s: &[u8], key: u8, from: usize, n: usize, room: &mut [u8], to: usize) -> usize
    requires { (0 < from → from + n ≤ length s.now) × (n < 256) × (to + length (string_entry s.now key from n) ≤ length room.old) }
    ensures { Filled (string_entry s.now key from n) to room.old result room.new }
{
    if from == 0 {
        return to;
    }
    room[to] = key;
    room[to + 1] = n as u8;
    copy(s, from, n, room, to + ENTRY_BYTES);
    to + ENTRY_BYTES + n
}

// The source, which is one less than the number; 0 is unset.
fn put_source(source: usize, room: &mut [u8], to: usize) -> usize
    requires { (source ≤ 256) × (to + length (entry source_key (λ n. n ∷ []) (optional source (source - 1))) ≤ length room.old) }
    ensures { Filled (entry source_key (λ n. n ∷ []) (optional source (source - 1))) to room.old result room.new }
{
    if source == 0 {
        return to;
    }
    room[to] = codes::SOURCE as u8;
    room[to + 1] = SOURCE_BYTES as u8;
    room[to + ENTRY_BYTES] = (source - 1) as u8;
    to + ENTRY_BYTES + SOURCE_BYTES
}

// The size, which is one less than the number; 0 is unset.
fn put_size(size: usize, room: &mut [u8], to: usize) -> usize
    requires { to + length (entry size_key be4 (optional size (size - 1))) ≤ length room.old }
    ensures { Filled (entry size_key be4 (optional size (size - 1))) to room.old result room.new }
{
    if size == 0 {
        return to;
    }
    room[to] = codes::SIZE as u8;
    room[to + 1] = SIZE_BYTES as u8;
    put_u32(room, to + ENTRY_BYTES, size - 1);
    to + ENTRY_BYTES + SIZE_BYTES
}

// The parameters that are set.
fn put_parameters(s: &[u8], a: Args, room: &mut [u8], to: usize) -> usize
    requires { Within s.now a.params × Fit s.now 256 a.params × (to + length (param_bytes (meaning s.now a.params)) ≤ length room.old) }
    ensures { Filled (param_bytes (meaning s.now a.params)) to room.old result room.new }
{
    let g = a.params;
    let p = put_string(s, codes::URI as u8, g.uri, g.length, room, to);
    let q = put_source(g.source, room, p);
    let r = put_string(
        s,
        codes::DIGEST as u8,
        g.digest,
        Controller::DIGEST_BYTES,
        room,
        q,
    );
    put_size(g.size, room, r)
}

// The argument of the command of that code, by its kind in the table.
pub fn put_argument(
    s: &[u8],
    table: &Table,
    code: usize,
    a: Args,
    room: &mut [u8],
    to: usize,
) -> usize
    requires { ArgumentFits s.now table.now code a room.old to }
    ensures { Filled (argument_of s.now code a) to room.old result room.new }
{
    match kind_of(table, code) {
        Argument::Sixteen => {
            copy(s, a.value, Controller::CLASS_BYTES, room, to);
            to + Controller::CLASS_BYTES
        }
        Argument::Parameters => put_parameters(s, a, room, to),
        Argument::Nil | Argument::Index | Argument::Alternatives | Argument::Sequence => to,
    }
}
