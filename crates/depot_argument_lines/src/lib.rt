// The argument of a program's record, below its line: the parameters, or the bytes in hexadecimal.
#![tactic(auto)]

ghost use Rattle.std.specs.Prelude.{◌≡◌, ◌+◌, ◌<◌, ◌≤◌, IfSome, length, get_or};
ghost use Rattle.rules.specs.ProgramFormat.{entry_length_from, entry_size};
ghost use Rattle.rules_kinds.specs.Kinds.{kind_of};
ghost use Rattle.text.specs.Text.{Writes};
ghost use Rattle.depot_argument_lines.specs.Items.{size_in, sized};
ghost use Rattle.depot_argument_lines.specs.Arguments.{lists_parameters, parameter_size};
ghost use Rattle.depot_argument_lines.specs.Arguments.{parameter_text, stray_text, parameters_text, hex_text, argument_text};

use byte_buffer::wide;
use depot_values::put_value;
use rules::controller::Controller;
use rules::program_format::{ENTRY_BYTES, ENTRY_LENGTH};
use rules::tables::Argument;
use rules_kinds::argument_of;
use text::{put, put_spaces};
use text_numbers::put_hex;

// The keys that a program has: all but coerce.
const KEYS: usize = Controller::PARAMETERS - 1;

// The spaces before what stands below a record.
const INDENT: usize = 12;

// How long an item of `head` bytes and `more` after them is, if it lies at the start of the bytes.
pub fn size_in(s: &[u8], head: usize, more: usize) -> Option<usize>
    requires { (0 < head) × (head ≤ length s.now) }
    ensures size { result ≡ sized (size_in s.now head more) }
    ensures within { IfSome result (λ size. size ≤ length s.now) }
{
    if s.len() - head < more {
        return None;
    }
    Some(head + more)
}

// How long the parameter at the start of the bytes is, if one lies there.
pub fn size_of(s: &[u8]) -> Option<usize>
    ensures size { result ≡ sized (parameter_size s.now) }
    ensures within { IfSome result (λ size. size ≤ length s.now) }
{
    if s.len() < ENTRY_BYTES {
        return None;
    }
    size_in(s, ENTRY_BYTES, wide(s[ENTRY_LENGTH]))
}

fn put_parameter(room: &mut [u8], at: usize, s: &[u8]) -> usize
    requires { entry_size + get_or s.now entry_length_from 0 ≤ length s.now }
    ensures { Writes (parameter_text s.now) at room result }
{
    let key = wide(s[0]);
    let end = ENTRY_BYTES + wide(s[ENTRY_LENGTH]);
    let a = put_spaces(room, at, INDENT);
    let b = text_names::put_parameter(room, a, key);
    let c = put(room, b, b" ");
    let d = put_value(room, c, key, &s[ENTRY_BYTES..end]);
    put(room, d, b"\n")
}

// Bytes that are no parameter.
fn put_stray(room: &mut [u8], at: usize, s: &[u8]) -> usize
    ensures { Writes (stray_text s.now) at room result }
{
    if s.is_empty() {
        return at;
    }
    put(room, at, b"            ?\n")
}

fn put_parameters(room: &mut [u8], at: usize, s: &[u8]) -> usize
    ensures { Writes (parameters_text s.now) at room result }
{
    let mut to = at;
    let mut rest = s;
    for _ in 0..KEYS {
        let Some(size) = size_of(rest) else {
            return put_stray(room, to, rest);
        };
        to = put_parameter(room, to, rest);
        rest = &rest[size..];
    }
    to
}

fn put_bytes(room: &mut [u8], at: usize, s: &[u8]) -> usize
    ensures { Writes (hex_text s.now) at room result }
{
    if s.is_empty() {
        return at;
    }
    let a = put_spaces(room, at, INDENT);
    let b = put_hex(room, a, s);
    put(room, b, b"\n")
}

fn lists_parameters(code: usize) -> bool
    ensures { result ≡ lists_parameters (kind_of code) }
{
    matches!(argument_of(code), Argument::Parameters)
}

pub fn put_argument(room: &mut [u8], at: usize, code: usize, s: &[u8]) -> usize
    ensures { Writes (argument_text code s.now) at room result }
{
    if lists_parameters(code) {
        return put_parameters(room, at, s);
    }
    put_bytes(room, at, s)
}
