// A table of words by number, in lent room: the numbers, and the words in the same order with a bar after each.
#![tactic(auto)]

ghost use Rattle.std.specs.Prelude.{◌≡◌, ◌≤◌, length, drop};
ghost use Rattle.text.specs.Text.{Writes};
ghost use Rattle.text.specs.Text.{position as Text·position};
ghost use Rattle.text_rows.specs.Rows.{wide, before, after};

use text::{position, put, put_spaces};

const BAR: u8 = b'|';

// A word, and spaces up to a width.
fn put_wide(room: &mut [u8], at: usize, word: &[u8], width: usize) -> usize
    ensures { Writes (wide width word.now) at room result }
{
    let to = put(room, at, word);
    let count = word.len();
    if width <= count {
        return to;
    }
    put_spaces(room, to, width - count)
}

// The place after k bars.
fn skip(s: &[u8], k: usize) -> usize
    ensures { (result ≤ length s.now) × (drop result s.now ≡ after k s.now) }
{
    let mut left = k;
    for (i, b) in s.iter().enumerate() {
        if left == 0 {
            return i;
        }
        if *b == BAR {
            left -= 1;
        }
    }
    s.len()
}

// The word of a number in a table, and spaces up to a width; that after the last bar where the number is not in it.
pub fn put_word(
    room: &mut [u8],
    at: usize,
    numbers: &[u8],
    words: &[u8],
    n: usize,
    width: usize,
) -> usize
    ensures { Writes (wide width (before (after (Text·position n numbers.now) words.now))) at room result }
{
    let from = skip(words, position(numbers, n));
    let rest = &words[from..];
    let to = position(rest, usize::from(BAR));
    put_wide(room, at, &rest[..to], width)
}
