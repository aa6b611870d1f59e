// A record, written to lent room.
ghost use Rattle.std.specs.Prelude.{◌≡◌, cond, ◌+◌, ◌≤◌, ◌<◌, length};
ghost use Rattle.rules.specs.Bytes.{put};
ghost use Rattle.rules.specs.Commands.{commands, row_of, condition_in};
ghost use Rattle.rules.specs.Limits.{limits};
ghost use Rattle.rules.specs.Tables.{by_number};
ghost use Rattle.rules.specs.ProgramFormat.{NONE, record_size};
ghost use Rattle.translate_record.specs.Record.{head_bytes, JumpWrote, LeafJob, LeafWrites};

use byte_buffer::put_u16;
use manifest_accessors::arguments::{component, read_one};
use rules::program_format;
use rules::program_format::{JUMP, NO_TARGET, RECORD_BYTES};
use rules_kinds::is_condition;
use rules_tables::Table;
use run_slots::params::either;
use translate_argument::put_argument;

// Where the next command is, the index and coerce of the sequence, the number of the next record, and its place in the room.
#[derive(Clone, Copy)]
pub struct WriteState {
    pub next: usize,
    pub index: usize,
    pub coerce: usize,
    pub n: usize,
    pub to: usize,
}

// Mark, code, component, place in 2, target in 2, length of the argument in 2.
fn put_head(
    room: &mut [u8],
    to: usize,
    code: usize,
    component: usize,
    place: usize,
    target: usize,
    size: usize,
)
    requires { (to + record_size ≤ length room.old) × (code < 256) × (component < 256) }
    ensures { room.new ≡ put room.old to (head_bytes code component place target size) }
{
    room[to] = program_format::MARK;
    room[to + 1] = program_format::MARK_2;
    room[to + program_format::CODE] = code as u8;
    room[to + program_format::COMPONENT] = component as u8;
    put_u16(room, to + program_format::PLACE, place);
    put_u16(room, to + program_format::TARGET, target);
    put_u16(room, to + program_format::ARGUMENT_LENGTH, size);
}

// Only a condition has a target.
fn target_of(table: &Table, code: usize, target: usize) -> usize
    requires { table.now ≡ by_number }
    ensures { result ≡ cond (condition_in (row_of code commands)) target NONE }
{
    if is_condition(table, code) {
        target
    } else {
        NO_TARGET
    }
}

// A jump to the record of that number.
pub fn put_jump(target: usize, state: WriteState, room: &mut [u8]) -> WriteState
    requires { (state.to + record_size ≤ length room.old) × (state.n < limits.records) }
    ensures { JumpWrote target state room.old result room.new }
{
    put_head(room, state.to, JUMP, 0, 0, target, 0);
    WriteState {
        n: state.n + 1,
        to: state.to + RECORD_BYTES,
        ..state
    }
}

// The command of that code, whose argument stands at `at`, and which holds no sequence.
pub fn put_command(
    s: &[u8],
    table: &Table,
    code: usize,
    at: usize,
    target: usize,
    state: WriteState,
    room: &mut [u8],
) -> WriteState
    requires { LeafJob s.now table.now code at state room.old }
    ensures { LeafWrites s.now table.now code at target state room result }
{
    let a = read_one(s, code, at);
    let index = component(code, a.value, state.index);
    let start = state.to + RECORD_BYTES;
    let end = put_argument(s, table, code, a, room, start);
    put_head(
        room,
        state.to,
        code,
        index,
        state.next,
        target_of(table, code, target),
        end - start,
    );
    WriteState {
        next: a.next,
        index,
        coerce: either(a.coerce, a.coerce, state.coerce),
        n: state.n + 1,
        to: end,
    }
}
