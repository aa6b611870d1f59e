// Lines of a text.
ghost use Rattle.std.specs.Prelude.{◌≡◌, ◌-◌, ◌<◌, ◌≤◌, length, drop};
ghost use Rattle.device_text.specs.Words as Words;

use crate::bare;
use text::position;

const LINE_FEED: usize = 10;

// '#'.
const COMMENT: usize = 35;

fn behind(text: &[u8], at: usize) -> &[u8]
    ensures { result.now ≡ drop at text.now }
{
    &text[at.min(text.len())..]
}

// What a line says: it has no comment, and no blanks at its start and its end.
fn content(l: &[u8]) -> &[u8]
    ensures { result.now ≡ Words.content l.now }
{
    let n = position(l, COMMENT);
    bare(&l[..n])
}

// What the line at a place says.
pub fn line_at(text: &[u8], at: usize) -> &[u8]
    ensures { result.now ≡ Words.content (Words.before Words.line_feed (drop at text.now)) }
{
    let t = behind(text, at);
    let n = position(t, LINE_FEED);
    content(&t[..n])
}

// The place after it.
pub fn next_line(text: &[u8], at: usize) -> usize
    ensures { (drop result text.now ≡ Words.after Words.line_feed (drop at text.now)) × (result ≤ length text.now) × (at < length text.now → at < result) }
{
    let t = behind(text, at);
    let n = position(t, LINE_FEED);
    if n < t.len() {
        return at + n + 1;
    }
    text.len()
}

// Where the line of number n starts, counted from 1.
fn line_start(text: &[u8], n: usize) -> usize
    ensures { drop result text.now ≡ Words.behind_lines (n - 1) text.now }
{
    let mut at = 0;
    for _ in 1..n {
        at = next_line(text, at);
    }
    at
}

// What it says.
pub fn line_of(text: &[u8], n: usize) -> &[u8]
    ensures { result.now ≡ Words.line_of n text.now }
{
    line_at(text, line_start(text, n))
}
