// Numbers as text in lent room: in decimal, behind spaces up to a width, and bytes in hexadecimal.
#![tactic(auto)]

ghost use Rattle.std.specs.Prelude.{◌≡◌, [], ◌∷◌, ◌<◌, length};
ghost use Rattle.text.specs.Text.{Writes, decimal, padded, hex};
ghost use Rattle.text.specs.Text.{digits as Text·digits, digit as Text·digit};

use text::{put_byte, put_spaces};

// A decimal number of 64 bits.
const DIGITS: usize = 20;

fn digit(d: usize) -> u8
    requires { d < 16 }
    ensures { result ≡ Text·digit d }
{
    let digit = if d < 10 { 48 + d } else { 87 + d };
    digit as u8
}

// A number in decimal, in at most k digits.
fn put_digits(room: &mut [u8], at: usize, n: usize, k: usize) -> usize
    ensures { Writes (Text·digits k n) at room result }
{
    if k == 0 {
        return at;
    }
    if n < 10 {
        return put_byte(room, at, digit(n));
    }
    let to = put_digits(room, at, n / 10, k - 1);
    put_byte(room, to, digit(n % 10))
}

pub fn put_decimal(room: &mut [u8], at: usize, n: usize) -> usize
    ensures { Writes (decimal n) at room result }
{
    put_digits(room, at, n, DIGITS)
}

// How many digits a number has in decimal, of at most k.
fn count_digits(n: usize, k: usize) -> usize
    ensures { result ≡ length (Text·digits k n) }
{
    if k == 0 {
        return 0;
    }
    if n < 10 {
        return 1;
    }
    count_digits(n / 10, k - 1) + 1
}

// A number in decimal, behind spaces up to a width.
pub fn put_padded(room: &mut [u8], at: usize, n: usize, width: usize) -> usize
    ensures { Writes (padded width n) at room result }
{
    let count = count_digits(n, DIGITS);
    if width <= count {
        return put_decimal(room, at, n);
    }
    let to = put_spaces(room, at, width - count);
    put_decimal(room, to, n)
}

pub fn put_hex(room: &mut [u8], at: usize, s: &[u8]) -> usize
    ensures { Writes (hex s.now) at room result }
{
    let mut to = at;
    for b in s {
        to = put_hex_byte(room, to, *b);
    }
    to
}

fn put_hex_byte(room: &mut [u8], at: usize, b: u8) -> usize
    ensures { Writes (hex (b ∷ [])) at room result }
{
    let n = b as usize;
    let to = put_byte(room, at, digit(n / 16));
    put_byte(room, to, digit(n % 16))
}
