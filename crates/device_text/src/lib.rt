// Lines, words and numbers of a text: here the words of a line.
#![tactic(auto)]

ghost use Rattle.std.specs.Prelude.{◌≡◌, ◌≤◌, length};
ghost use Rattle.device_text.specs.Words as Words;

pub mod line;
pub mod read;

const TAB: u8 = 9;

const RETURN: u8 = 13;

const SPACE: u8 = 32;

fn blank(x: u8) -> bool
    ensures { result ≡ Words.blank x }
{
    x == SPACE || x == TAB || x == RETURN
}

// The place of the first blank, or the length.
fn first_blank(s: &[u8]) -> usize
    ensures { (result ≡ Words.first_blank s.now) × (result ≤ length s.now) }
{
    s.iter().position(|x| blank(*x)).unwrap_or(s.len())
}

// Without the blanks in front.
fn skip(s: &[u8]) -> &[u8]
    ensures { result.now ≡ Words.skip s.now }
{
    let mut kept = s;
    while let [first, behind @ ..] = kept
        && blank(*first)
    {
        kept = behind;
    }
    kept
}

// Without the blanks at the end.
fn trim(s: &[u8]) -> &[u8]
    ensures { result.now ≡ Words.trim s.now }
{
    let mut kept = s;
    while let [front @ .., last] = kept
        && blank(*last)
    {
        kept = front;
    }
    kept
}

// Without those in front and at the end.
pub(crate) fn bare(s: &[u8]) -> &[u8]
    ensures { result.now ≡ Words.skip (Words.trim s.now) }
{
    skip(trim(s))
}

// The first word, and what stands behind it.
pub fn word(s: &[u8]) -> &[u8]
    ensures { result.now ≡ Words.word s.now }
{
    let n = first_blank(s);
    &s[..n]
}

pub fn rest(s: &[u8]) -> &[u8]
    ensures { result.now ≡ Words.rest s.now }
{
    let n = first_blank(s);
    skip(&s[n..])
}
