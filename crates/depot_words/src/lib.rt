// The words of a command line, as bytes: one after the other, each ended by a zero byte.
#![tactic(auto)]

ghost use Rattle.std.specs.Prelude.{◌≡◌, map};
ghost use Rattle.text.specs.Text.{Writes};
ghost use Rattle.depot_words.specs.CommandLine.{word_at, word_count, later_words, words_of};
ghost use Rattle.depot_words.specs.CommandLine.{parted as CommandLine·parted};

use text::{position, put_byte};

const SPACE: u8 = 32;

const END: usize = 0;

// The words after the first.
#[tactic(auto, unfolding(crate::specs::CommandLine::later_words))]
pub fn later_words(words: &[u8]) -> &[u8]
    ensures { result.now ≡ later_words words.now }
{
    let n = position(words, END);
    if n < words.len() {
        return &words[n + 1..];
    }
    b""
}

// Word k, counted from 0; empty where there are fewer.
pub fn word_at(words: &[u8], k: usize) -> &[u8]
    ensures { result.now ≡ word_at k words.now }
{
    let mut rest = words;
    for _ in 0..k {
        rest = later_words(rest);
    }
    let n = position(rest, END);
    &rest[..n]
}

pub fn word_count(words: &[u8]) -> usize
    ensures { result ≡ word_count words.now }
{
    words.iter().filter(|b| **b == 0).count()
}

fn parted(b: u8) -> u8
    ensures { result ≡ CommandLine·parted b }
{
    if b == SPACE {
        return 0;
    }
    b
}

fn put_parted(room: &mut [u8], at: usize, line: &[u8]) -> usize
    ensures { Writes (map CommandLine·parted line.now) at room result }
{
    let mut to = at;
    for b in line {
        to = put_byte(room, to, parted(*b));
    }
    to
}

// A line whose words are parted by single spaces, as words.
pub fn put_words(room: &mut [u8], at: usize, line: &[u8]) -> usize
    ensures { Writes (words_of line.now) at room result }
{
    let to = put_parted(room, at, line);
    put_byte(room, to, 0)
}
