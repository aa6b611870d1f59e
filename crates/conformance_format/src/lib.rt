// What the lines of answers share: numbers in a template, a refusal, and bytes in hexadecimal.
#![tactic(auto)]

ghost use Rattle.std.specs.Prelude.{◌≡◌, get_or};
ghost use Rattle.text.specs.Text.{Writes};
ghost use Rattle.conformance_format.specs.Format.{format, piece, refused_text, bytes_text};

use text::put_byte;
use text_numbers::{put_decimal, put_hex};

const PERCENT: u8 = 37;

pub const NEWLINE: u8 = 10;

pub fn number_at(numbers: &[usize], k: usize) -> usize
    ensures { result ≡ get_or numbers.now k 0 }
{
    numbers.get(k).copied().unwrap_or(0)
}

fn put_piece(room: &mut [u8], at: usize, c: u8, n: usize) -> usize
    ensures { Writes (piece c n) at room result }
{
    if c == PERCENT {
        return put_decimal(room, at, n);
    }
    put_byte(room, at, c)
}

pub fn put_format(room: &mut [u8], at: usize, template: &[u8], numbers: &[usize]) -> usize
    ensures { Writes (format template.now numbers.now) at room result }
{
    let mut to = at;
    let mut k = 0;
    for c in template {
        to = put_piece(room, to, *c, number_at(numbers, k));
        if *c == PERCENT {
            k += 1;
        }
    }
    to
}

pub fn put_refused(room: &mut [u8], at: usize, number: usize, place: usize) -> usize
    ensures { Writes (refused_text number place) at room result }
{
    put_format(room, at, b"refused % %\n", &[number, place])
}

pub fn put_bytes(room: &mut [u8], at: usize, b: &[u8]) -> usize
    ensures { Writes (bytes_text b.now) at room result }
{
    if b.len() == 0 {
        return put_byte(room, at, b'-');
    }
    put_hex(room, at, b)
}
