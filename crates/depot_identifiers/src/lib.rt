// Identifiers as text: in hexadecimal, and where they are read as parts of which one prints, the parts behind it.
#![tactic(auto)]

ghost use Rattle.std.specs.Prelude.{◌≡◌};
ghost use Rattle.text.specs.Text.{Writes};
ghost use Rattle.text_pieces.specs.Pieces.{between};
ghost use Rattle.depot_identifiers.specs.Identifier.{all_print, prints, strings, one_prints, value_text, part_text, parts_text, identifier_text};

use depot_items::want;
use text::{put, put_byte, put_quoted};
use text_numbers::put_hex;
use text_pieces::within;

// Whether all bytes are printed as they are.
fn all_print(s: &[u8]) -> bool
    ensures { result ≡ all_print s.now }
{
    s.iter().all(|b| (b' '..=b'~').contains(b))
}

fn prints_whole(s: &[u8]) -> bool
    ensures { result ≡ prints s.now }
{
    !s.is_empty() && all_print(s)
}

// Whether n byte strings stand from `from` on, and nothing behind them.
fn are_strings(s: &[u8], n: usize, from: usize) -> bool
    ensures { result ≡ strings s.now n from }
{
    let mut next = from;
    for _ in 0..n {
        let i = want(s, s.len(), next, cbor::BYTES);
        if i.kind != cbor::BYTES {
            return false;
        }
        next = i.after;
    }
    next == s.len()
}

// Whether one of n byte strings prints.
fn one_prints(s: &[u8], n: usize, from: usize) -> bool
    ensures { result ≡ one_prints s.now n from }
{
    let mut next = from;
    for _ in 0..n {
        let i = want(s, s.len(), next, cbor::BYTES);
        if prints_whole(&s[i.next..i.after]) {
            return true;
        }
        next = i.after;
    }
    false
}

// A part, before `left` others.
fn put_one(room: &mut [u8], at: usize, part: &[u8], left: usize) -> usize
    ensures { Writes (part_text left part.now) at room result }
{
    let to = put_value(room, at, part);
    if left == 0 {
        return to;
    }
    put(room, to, b", ")
}

fn put_value(room: &mut [u8], at: usize, part: &[u8]) -> usize
    ensures { Writes (value_text part.now) at room result }
{
    if prints_whole(part) {
        return put_quoted(room, at, part);
    }
    put_hex(room, at, part)
}

fn put_parts(room: &mut [u8], at: usize, s: &[u8], n: usize, from: usize) -> usize
    ensures { Writes (parts_text s.now n from) at room result }
{
    let mut to = at;
    let mut next = from;
    for left in (0..n).rev() {
        let i = want(s, s.len(), next, cbor::BYTES);
        to = put_one(room, to, &s[i.next..i.after], left);
        next = i.after;
    }
    to
}

pub fn put_identifier(room: &mut [u8], at: usize, s: &[u8]) -> usize
    ensures { Writes (identifier_text s.now) at room result }
{
    let to = put_hex(room, at, s);
    let h = want(s, s.len(), 0, cbor::ARRAY);
    if h.kind != cbor::ARRAY || !are_strings(s, h.num, h.next) || !one_prints(s, h.num, h.next) {
        return to;
    }
    let a = put(room, to, b" (");
    let b = put_parts(room, a, s, h.num, h.next);
    put_byte(room, b, b')')
}

// The identifier from one place to before another, cut where the bytes end.
pub fn put_identifier_at(room: &mut [u8], at: usize, s: &[u8], from: usize, to: usize) -> usize
    ensures { Writes (identifier_text (between s.now from to)) at room result }
{
    let p = within(s, from, to);
    put_identifier(room, at, &s[p.from..p.to])
}
