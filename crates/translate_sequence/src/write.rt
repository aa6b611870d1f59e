// The records of sequences and commands, written to lent room.
ghost use Rattle.std.specs.Prelude.{◌≡◌};
ghost use Rattle.translate_sequence.specs.Write.{SequenceJob, CommandJob, SequenceWrites, CommandWrites};

use manifest_accessors::arguments::COERCE_FALSE;
use manifest_accessors::heads::open;
use rules_kinds::{holds_alternatives, holds_sequence, kind_of};
use rules_tables::Table;
use translate_record::record::{WriteState, put_command, put_jump};
use translate_size::sizes::{size_command, size_sequence};
use translate_targets::{caught, record_after};

// The state at `at` with the index and coerce of `state`: the records from there follow those of `now`.
fn enter(state: WriteState, at: usize, now: WriteState) -> WriteState
    ensures { result ≡ record { next = at; index = state.index; coerce = state.coerce; n = now.n; to = now.to } }
{
    WriteState {
        next: at,
        n: now.n,
        to: now.to,
        ..state
    }
}

// The sequence at state.next: a failed condition goes on at `target`, or at `beyond` where `coercible` holds and coerce is true.
#[cycle(write_command_write_sequence)]
pub fn write_sequence(
    s: &[u8],
    table: &Table,
    depth: usize,
    coercible: bool,
    target: usize,
    beyond: usize,
    state: WriteState,
    room: &mut [u8],
) -> WriteState
    requires { SequenceJob s.now table.now depth state room.old }
    ensures { SequenceWrites s.now table.now depth coercible target beyond state room result }
{
    let h = open(s, state.next);
    let mut now = WriteState {
        next: h.next,
        index: state.index,
        coerce: COERCE_FALSE,
        n: state.n,
        to: state.to,
    };
    for _ in 0..h.value / 2 {
        let t = caught(coercible, now.coerce, beyond, target);
        now = write_command(s, table, depth - 1, t, now, room);
    }
    enter(state, now.next, now)
}

// The command at state.next: a failed condition goes on at `target`.
#[cycle(write_command_write_sequence)]
fn write_command(
    s: &[u8],
    table: &Table,
    depth: usize,
    target: usize,
    state: WriteState,
    room: &mut [u8],
) -> WriteState
    requires { CommandJob s.now table.now depth state room.old }
    ensures { CommandWrites s.now table.now depth target state room result }
{
    let c = open(s, state.next);
    let code = c.value;
    let kind = kind_of(table, code);
    if holds_sequence(kind) {
        let b = open(s, c.next);
        let inner = size_sequence(s, table, depth, b.next);
        let z = record_after(state.n, inner.records);
        let first = enter(state, b.next, state);
        return write_sequence(s, table, depth, true, target, z, first, room);
    }
    if holds_alternatives(kind) {
        let whole = size_command(s, table, depth, state.next);
        let z = state.n + whole.records;
        let h = open(s, c.next);
        let mut now = enter(state, h.next, state);
        for _ in 1..h.value {
            let b = open(s, now.next);
            let alternative = size_sequence(s, table, depth, b.next);
            let after = now.n + alternative.records + 1;
            let first = enter(state, b.next, now);
            now = write_sequence(s, table, depth, false, after, z, first, room);
            now = put_jump(z, now, room);
        }
        let b = open(s, now.next);
        let last = enter(state, b.next, now);
        return write_sequence(s, table, depth, false, target, z, last, room);
    }
    put_command(s, table, code, c.next, target, state, room)
}
