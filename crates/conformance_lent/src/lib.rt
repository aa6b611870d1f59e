// Lent bytes: filled before a job, and looked at after it, beside the line of its answer.
#![tactic(auto)]

ghost use Rattle.std.specs.Prelude.{◌≡◌, length, drop, replicate};
ghost use Rattle.text.specs.Text.{Writes};
ghost use Rattle.conformance_lent.specs.Lent.{all_are, altered_text, translation_line, kept_all, ran_line};

use byte_buffer::is;
use conformance_lines::put_translated;
use conformance_run_lines::{events_end, put_ran};
use pitvorgas_answers::{RunAnswer, TranslateAnswer};
use text::{least, put};

// What a room is filled with.
pub const ROOM_FILL: u8 = 160;

// Room for a length of two bytes; what bytes it has does not matter.
pub const MEMORY_BYTES: usize = 65536;

const _: () = prove!(MEMORY_BYTES == 65536);

pub fn fill(b: &mut [u8], x: u8)
    ensures { b.new ≡ replicate (length b.old) x }
{
    b.fill(x);
}

// The bytes from `at` on.
fn behind(b: &[u8], at: usize) -> &[u8]
    ensures { result.now ≡ drop at b.now }
{
    &b[at.min(b.len())..]
}

// Whether every byte from `at` on is x.
fn all_are(b: &[u8], at: usize, x: u8) -> bool
    ensures { result ≡ all_are x (drop at b.now) }
{
    behind(b, at).iter().all(|y| *y == x)
}

fn put_altered(room: &mut [u8], at: usize, kept: bool) -> usize
    ensures { Writes (altered_text kept) at room result }
{
    if kept {
        return at;
    }
    put(room, at, b"altered\n")
}

pub fn put_translation(room: &mut [u8], answer: TranslateAnswer, lent: &[u8]) -> usize
    ensures { Writes (translation_line answer lent.now) 0 room result }
{
    let end = least(answer.length, lent.len());
    let kept = all_are(lent, end, ROOM_FILL);
    let a = put_translated(room, 0, answer, lent);
    put_altered(room, a, kept)
}

#[tactic(auto, unfolding(crate::specs::Lent::kept_all))]
fn kept_all(answer: RunAnswer, before: &[u8], slots: &[u8], fill: u8, trace: &[u8]) -> bool
    ensures { result ≡ kept_all answer before.now slots.now fill trace.now }
{
    let n = events_end(answer.events, trace.len());
    all_are(trace, n, fill) && (answer.refusal == 0 || is(before, slots))
}

pub fn put_run(
    room: &mut [u8],
    answer: RunAnswer,
    before: &[u8],
    slots: &[u8],
    fill: u8,
    trace: &[u8],
) -> usize
    ensures { Writes (ran_line answer before.now slots.now fill trace.now) 0 room result }
{
    let kept = kept_all(answer, before, slots, fill, trace);
    let a = put_ran(room, 0, answer, slots, trace);
    put_altered(room, a, kept)
}
