// The pieces of a line.
ghost use Rattle.std.specs.Prelude.{◌≡◌, ◌-◌, ◌*◌};
ghost use Rattle.rules.specs.Limits.{limits};
ghost use Rattle.text.specs.Text.{Writes};
ghost use Rattle.depot_items.specs.Line.{margin_text, title_text, string_text, item_text, argument_text, alternative_text, parameter_text};

use crate::Item;
use rules::controller::Controller;
use text::{put, put_byte, put_quoted, put_spaces};
use text_numbers::{put_decimal, put_hex, put_padded};
use text_pieces::{put_code, put_counted, put_labelled};

pub const NEWLINE: u8 = 10;

// How deep the sequences are that the commands of a section may hold.
const LEVELS: usize = Controller::DEPTH - 1;

// Two columns for each level.
fn indent(depth: usize) -> usize
    ensures { result ≡ 2 * (limits.depth - 1 - depth) }
{
    2 * LEVELS.saturating_sub(depth)
}

pub fn put_margin(room: &mut [u8], at: usize, columns: usize, depth: usize) -> usize
    ensures { Writes (margin_text columns depth) at room result }
{
    let to = put_spaces(room, at, columns);
    put_spaces(room, to, indent(depth))
}

// The place, name and code of the command at `place`.
pub fn put_title(room: &mut [u8], at: usize, depth: usize, place: usize, code: usize) -> usize
    ensures { Writes (title_text depth place code) at room result }
{
    let a = put_padded(room, at, place, 6);
    let b = put_margin(room, a, 2, depth);
    let c = text_names::put_command(room, b, code);
    put_code(room, c, code)
}

// The string from `from` to `end`: a text in quotes, any other in hexadecimal.
pub fn put_string(
    room: &mut [u8],
    at: usize,
    s: &[u8],
    kind: usize,
    from: usize,
    end: usize,
) -> usize
    ensures { Writes (string_text s.now kind from end) at room result }
{
    if s.len() < end || end < from {
        return put(room, at, b"?");
    }
    if kind == cbor::TEXT {
        return put_quoted(room, at, &s[from..end]);
    }
    put_hex(room, at, &s[from..end])
}

fn put_item(room: &mut [u8], at: usize, s: &[u8], i: Item) -> usize
    ensures { Writes (item_text s.now i) at room result }
{
    match i.kind {
        cbor::NUMBER => put_decimal(room, at, i.num),
        cbor::BYTES | cbor::TEXT => put_string(room, at, s, i.kind, i.next, i.after),
        cbor::FALSE => put(room, at, b"false"),
        cbor::TRUE => put(room, at, b"true"),
        _ => put(room, at, b"?"),
    }
}

// An argument on its command's line.
pub fn put_argument(room: &mut [u8], at: usize, s: &[u8], i: Item) -> usize
    ensures { Writes (argument_text s.now i) at room result }
{
    match i.kind {
        cbor::NIL | cbor::MAP => at,
        cbor::ARRAY => put_counted(room, at, b", ", i.num, b" alternative"),
        _ => {
            let a = put(room, at, b" ");
            put_item(room, a, s, i)
        }
    }
}

// The line above alternative `n`.
pub fn put_alternative(room: &mut [u8], at: usize, depth: usize, n: usize) -> usize
    ensures { Writes (alternative_text depth n) at room result }
{
    let a = put_margin(room, at, 8, depth);
    let b = put_labelled(room, a, b"alternative ", n);
    put_byte(room, b, NEWLINE)
}

// A parameter and its value.
pub fn put_parameter(
    room: &mut [u8],
    at: usize,
    s: &[u8],
    depth: usize,
    key: usize,
    i: Item,
) -> usize
    ensures { Writes (parameter_text s.now depth key i) at room result }
{
    let a = put_margin(room, at, 10, depth);
    let b = text_names::put_parameter(room, a, key);
    let c = put(room, b, b" ");
    let d = put_item(room, c, s, i);
    put_byte(room, d, NEWLINE)
}
