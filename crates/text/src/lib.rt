// Text in lent room. Each function writes from `at` on, as far as the room goes, and gives the place after what it wrote.
#![tactic(auto)]

ghost use Rattle.std.specs.Prelude.{◌≡◌, [], ◌∷◌, map, ◌≤◌, length, replicate};
ghost use Rattle.text.specs.Text.{Writes, quoted};
ghost use Rattle.text.specs.Text.{least as Text·least, printable as Text·printable, position as Text·position};

const SPACE: u8 = 32;

const QUOTE: u8 = 34;

const POINT: u8 = 46;

const TILDE: u8 = 126;

// The lesser of two numbers, for what is shown of a count.
pub fn least(a: usize, b: usize) -> usize
    ensures { result ≡ Text·least a b }
{
    a.min(b)
}

// The first place of a number, or the length.
pub fn position(s: &[u8], n: usize) -> usize
    ensures { (result ≡ Text·position n s.now) × (result ≤ length s.now) }
{
    s.iter()
        .position(|b| usize::from(*b) == n)
        .unwrap_or(s.len())
}

pub fn put_byte(room: &mut [u8], at: usize, b: u8) -> usize
    ensures { Writes (b ∷ []) at room result }
{
    if room.len() <= at {
        return at;
    }
    room[at] = b;
    at + 1
}

pub fn put(room: &mut [u8], at: usize, s: &[u8]) -> usize
    ensures { Writes s.now at room result }
{
    let mut to = at;
    for b in s {
        to = put_byte(room, to, *b);
    }
    to
}

// A byte, n times.
pub fn put_times(room: &mut [u8], at: usize, b: u8, n: usize) -> usize
    ensures { Writes (replicate n b) at room result }
{
    let mut to = at;
    for _ in 0..n {
        to = put_byte(room, to, b);
    }
    to
}

pub fn put_spaces(room: &mut [u8], at: usize, n: usize) -> usize
    ensures { Writes (replicate n 32) at room result }
{
    put_times(room, at, SPACE, n)
}

fn printable(b: u8) -> u8
    ensures { result ≡ Text·printable b }
{
    if b < SPACE || TILDE < b { POINT } else { b }
}

fn put_printed(room: &mut [u8], at: usize, s: &[u8]) -> usize
    ensures { Writes (map Text·printable s.now) at room result }
{
    let mut to = at;
    for b in s {
        to = put_byte(room, to, printable(*b));
    }
    to
}

// A text in quotes.
pub fn put_quoted(room: &mut [u8], at: usize, s: &[u8]) -> usize
    ensures { Writes (quoted s.now) at room result }
{
    let a = put_byte(room, at, QUOTE);
    let b = put_printed(room, a, s);
    put_byte(room, b, QUOTE)
}
