// The bytes around a place, as text in lent room.
#![tactic(auto)]

ghost use Rattle.std.specs.Prelude.{◌≡◌, ◌<◌, ◌+◌, ◌-◌, length};
ghost use Rattle.text.specs.Text.{Writes};
ghost use Rattle.text_pieces.specs.Pieces.{between, spaced};
ghost use Rattle.depot_around.specs.Around.{shown, before_text, around_text};

use text::{put, put_byte};
use text_pieces::{put_labelled, put_part, put_spaced};

// How many bytes are shown before the place, and after it.
const SHOWN: usize = 8;

const END: usize = 1 + SHOWN;

fn back(p: usize) -> usize
    ensures { result ≡ p - shown }
{
    p.saturating_sub(SHOWN)
}

fn put_before(room: &mut [u8], at: usize, s: &[u8], p: usize) -> usize
    ensures { Writes (before_text s.now p) at room result }
{
    let from = back(p);
    let a = put_labelled(room, at, b"  ", from);
    let b = put_byte(room, a, b':');
    put_spaced(room, b, s, from, p)
}

// The bytes shown after p, or as many as there are.
fn put_after(room: &mut [u8], at: usize, s: &[u8], p: usize) -> usize
    requires { p < length s.now }
    ensures { Writes (spaced (between s.now (p + 1) (p + (1 + shown)))) at room result }
{
    let end = s.len();
    let to = if end - p < END { end } else { p + END };
    put_spaced(room, at, s, p + 1, to)
}

// The bytes around a place.
pub fn put_around(room: &mut [u8], at: usize, s: &[u8], p: usize) -> usize
    ensures { Writes (around_text s.now p) at room result }
{
    let end = s.len();
    if end <= p {
        let a = put_before(room, at, s, end);
        return put(room, a, b" [end]\n");
    }
    let b = put_before(room, at, s, p);
    let c = put(room, b, b" [");
    let d = put_part(room, c, s, p, p + 1);
    let e = put_byte(room, d, b']');
    let f = put_after(room, e, s, p);
    put_byte(room, f, b'\n')
}
