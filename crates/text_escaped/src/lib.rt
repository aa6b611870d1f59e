// A name as it is shown, in lent room: control bytes and the backslash are escaped.
#![tactic(auto)]

ghost use Rattle.text.specs.Text.{Writes};
ghost use Rattle.text_escaped.specs.Escaped.{escape, escaped_byte, escaped};

use text::{put, put_byte};
use text_numbers::put_hex;

const SPACE: u8 = 32;

const BACKSLASH: u8 = 92;

const DELETE: u8 = 127;

fn put_escape(room: &mut [u8], at: usize, b: u8) -> usize
    ensures { Writes (escape b) at room result }
{
    let to = put(room, at, &[BACKSLASH, b'x']);
    put_hex(room, to, &[b])
}

fn put_escaped_byte(room: &mut [u8], at: usize, b: u8) -> usize
    ensures { Writes (escaped_byte b) at room result }
{
    if b < SPACE || b == DELETE {
        put_escape(room, at, b)
    } else if b == BACKSLASH {
        put(room, at, &[BACKSLASH, BACKSLASH])
    } else {
        put_byte(room, at, b)
    }
}

pub fn put_escaped(room: &mut [u8], at: usize, s: &[u8]) -> usize
    ensures { Writes (escaped s.now) at room result }
{
    let mut to = at;
    for b in s {
        to = put_escaped_byte(room, to, *b);
    }
    to
}
