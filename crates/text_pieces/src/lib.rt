// What lines of text are made of, in lent room: numbers behind a label, and parts of lent bytes in hexadecimal. A part is cut where the bytes end.
#![tactic(auto)]

ghost use Rattle.std.specs.Prelude.{◌≡◌, [], ◌∷◌, ◌≤◌, length};
ghost use Rattle.text.specs.Text.{Writes, hex};
ghost use Rattle.text_pieces.specs.Pieces.{between, spaced, labelled, counted, coded};

use text::{put, put_byte};
use text_numbers::{put_decimal, put_hex};

#[derive(Clone, Copy)]
pub struct Range {
    pub from: usize,
    pub to: usize,
}

// The part's own places in the bytes.
pub fn within(s: &[u8], from: usize, to: usize) -> Range
    ensures { (result.from ≤ result.to) × (result.to ≤ length s.now) × (between s.now result.from result.to ≡ between s.now from to) }
{
    let end = s.len();
    if to <= from || end <= from {
        return Range { from: 0, to: 0 };
    }
    let to = to.min(end);
    Range { from, to }
}

// The bytes from one place to before another.
pub fn put_part(room: &mut [u8], at: usize, s: &[u8], from: usize, to: usize) -> usize
    ensures { Writes (hex (between s.now from to)) at room result }
{
    let p = within(s, from, to);
    let a = p.from;
    let b = p.to;
    put_hex(room, at, &s[a..b])
}

// The same, each byte behind a space.
pub fn put_spaced(room: &mut [u8], at: usize, s: &[u8], from: usize, to: usize) -> usize
    ensures { Writes (spaced (between s.now from to)) at room result }
{
    let p = within(s, from, to);
    let a = p.from;
    let b = p.to;
    put_each(room, at, &s[a..b])
}

fn put_each(room: &mut [u8], at: usize, s: &[u8]) -> usize
    ensures { Writes (spaced s.now) at room result }
{
    let mut to = at;
    for b in s {
        to = put_one(room, to, *b);
    }
    to
}

fn put_one(room: &mut [u8], at: usize, b: u8) -> usize
    ensures { Writes (spaced (b ∷ [])) at room result }
{
    let to = put_byte(room, at, b' ');
    put_hex(room, to, &[b])
}

pub fn put_labelled(room: &mut [u8], at: usize, label: &[u8], n: usize) -> usize
    ensures { Writes (labelled label.now n) at room result }
{
    let to = put(room, at, label);
    put_decimal(room, to, n)
}

pub fn put_counted(room: &mut [u8], at: usize, label: &[u8], n: usize, thing: &[u8]) -> usize
    ensures { Writes (counted label.now n thing.now) at room result }
{
    let a = put_labelled(room, at, label, n);
    let b = put(room, a, thing);
    if n == 1 {
        return b;
    }
    put_byte(room, b, b's')
}

// A code or key, behind its name.
pub fn put_code(room: &mut [u8], at: usize, n: usize) -> usize
    ensures { Writes (coded n) at room result }
{
    let to = put_labelled(room, at, b" (", n);
    put_byte(room, to, b')')
}
