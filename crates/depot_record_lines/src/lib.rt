// The lines of a program's records: commands and jumps.
#![tactic(auto)]

ghost use Rattle.std.specs.Prelude.{◌≡◌, ◌+◌, ◌-◌, ◌≤◌, IfSome, length};
ghost use Rattle.rules.specs.ProgramFormat.{argument_from};
ghost use Rattle.rules.specs.ProgramFormat.{record_size as ProgramFormat·recordSize};
ghost use Rattle.text.specs.Text.{Writes};
ghost use Rattle.text_rows.specs.Rows.{wide as Rows·wide};
ghost use Rattle.rules.specs.Bytes.{two_at};
ghost use Rattle.depot_argument_lines.specs.Items.{sized};
ghost use Rattle.depot_record_lines.specs.Lines.{column, name_text, line_text, target_text, failure_text, jump_text};
ghost use Rattle.depot_record_lines.specs.Lines.{record_size, command_text, record_text, records_text};

use byte_buffer::{two, wide};
use depot_argument_lines::{put_argument, size_in};
use rules::program_format::{
    ARGUMENT_LENGTH, CODE, COMPONENT, JUMP, NO_TARGET, PLACE, RECORD_BYTES, TARGET,
};
use rules_kinds::condition_of;
use text::{put, put_spaces};
use text_names::put_command;
use text_numbers::put_padded;
use text_pieces::{put_code, put_labelled};

// Where the component stands in a line, from the command's name on.
const COLUMN: usize = 26;

fn put_name(room: &mut [u8], at: usize, code: usize) -> usize
    ensures { Writes (name_text code) at room result }
{
    let to = put_command(room, at, code);
    put_code(room, to, code)
}

// The spaces after a name that was written from one place to another.
fn gap(from: usize, to: usize) -> usize
    ensures { result ≡ column - (to - from) }
{
    COLUMN.saturating_sub(to.saturating_sub(from))
}

fn put_label(room: &mut [u8], at: usize, code: usize) -> usize
    ensures { Writes (Rows·wide column (name_text code)) at room result }
{
    let a = put_name(room, at, code);
    put_spaces(room, a, gap(at, a))
}

fn put_line(room: &mut [u8], at: usize, code: usize, component: usize, place: usize) -> usize
    ensures { Writes (line_text code component place) at room result }
{
    let a = put_label(room, at, code);
    let b = put_labelled(room, a, b"component ", component);
    let c = put(room, b, b"  place ");
    put_padded(room, c, place, 5)
}

fn put_target(room: &mut [u8], at: usize, total: usize, target: usize) -> usize
    ensures { Writes (target_text total target) at room result }
{
    if target == NO_TARGET {
        return put(room, at, b"ends");
    }
    if target == total {
        return put(room, at, b"finished");
    }
    put_labelled(room, at, b"record ", target)
}

// Where a failed condition goes on.
fn put_failure(room: &mut [u8], at: usize, total: usize, code: usize, target: usize) -> usize
    ensures { Writes (failure_text total code target) at room result }
{
    if condition_of(code) {
        let a = put(room, at, b"  on failure: ");
        let b = put_target(room, a, total, target);
        return put(room, b, b"\n");
    }
    put(room, at, b"\n")
}

fn put_jump(room: &mut [u8], at: usize, total: usize, target: usize) -> usize
    ensures { Writes (jump_text total target) at room result }
{
    if target == total {
        return put(room, at, b"jump, finished\n");
    }
    let to = put_labelled(room, at, b"jump to record ", target);
    put(room, to, b"\n")
}

// How long the record at the start of the bytes is, if one lies there.
pub fn size_of(s: &[u8]) -> Option<usize>
    ensures size { result ≡ sized (record_size s.now) }
    ensures within { IfSome result (λ size. size ≤ length s.now) }
{
    if s.len() < RECORD_BYTES {
        return None;
    }
    size_in(s, RECORD_BYTES, two(s, ARGUMENT_LENGTH))
}

fn put_command_record(room: &mut [u8], at: usize, total: usize, s: &[u8]) -> usize
    requires { ProgramFormat·recordSize + two_at s.now argument_from ≤ length s.now }
    ensures { Writes (command_text total s.now) at room result }
{
    let code = wide(s[CODE]);
    let a = put_line(room, at, code, wide(s[COMPONENT]), two(s, PLACE));
    let b = put_failure(room, a, total, code, two(s, TARGET));
    let end = RECORD_BYTES + two(s, ARGUMENT_LENGTH);
    put_argument(room, b, code, &s[RECORD_BYTES..end])
}

fn put_record(room: &mut [u8], at: usize, total: usize, n: usize, s: &[u8]) -> usize
    requires { ProgramFormat·recordSize + two_at s.now argument_from ≤ length s.now }
    ensures { Writes (record_text total n s.now) at room result }
{
    let a = put_padded(room, at, n, 4);
    let b = put(room, a, b"  ");
    if wide(s[CODE]) == JUMP {
        return put_jump(room, b, total, two(s, TARGET));
    }
    put_command_record(room, b, total, s)
}

pub fn put_records(room: &mut [u8], at: usize, s: &[u8], total: usize) -> usize
    ensures { Writes (records_text total s.now) at room result }
{
    let mut to = at;
    let mut rest = s;
    for n in 0..total {
        let Some(size) = size_of(rest) else {
            return put(room, to, b"?\n");
        };
        to = put_record(room, to, total, n, rest);
        rest = &rest[size..];
    }
    to
}
