// The jobs, each with memory of its own, and the line of its answer.
ghost use Rattle.std.specs.Prelude.{◌≡◌, ◌<◌, length};
ghost use Rattle.text.specs.Text.{Writes};
ghost use Rattle.pitvorgas.specs.Answers.{Answers};
ghost use Rattle.conformance_cases.specs.Fields.{run_head, device_of};
ghost use Rattle.conformance_cases.specs.Cases.{check_line, newer_line, translate_line, ran_by, run_filled, run_line, head_line};

use crate::fields::{FILL, GROUP, TRACE, VERDICT, device_of};
use buffers::zeroed;
use byte_buffer::two;
use cbor_reader::{head_at, left_at};
use conformance_check_lines::put_checked;
use conformance_lent::{MEMORY_BYTES, ROOM_FILL, fill, put_run, put_translation};
use conformance_lines::{put_head, put_newer};
use pitvorgas::{
    pitvorgas_check, pitvorgas_newer, pitvorgas_run, pitvorgas_run_program, pitvorgas_translate,
};
use pitvorgas_answers::RunAnswer;
use text::put;

pub(crate) fn check_line(envelope: &[u8], room: &mut [u8]) -> usize
    ensures { Writes (check_line envelope.now) 0 room result }
{
    put_checked(room, 0, pitvorgas_check(envelope))
}

pub(crate) fn newer_line(first: &[u8], second: &[u8], room: &mut [u8]) -> usize
    ensures { Writes (newer_line first.now second.now) 0 room result }
{
    put_newer(room, 0, pitvorgas_newer(first, second))
}

// A translation into lent room.
fn translate_into(envelope: &[u8], boot: bool, lent: &mut [u8], room: &mut [u8]) -> usize
    ensures { Writes (translate_line envelope.now boot (length lent.old)) 0 room result }
{
    fill(lent, ROOM_FILL);
    let answer = pitvorgas_translate(envelope, boot, lent);
    put_translation(room, answer, lent)
}

pub(crate) fn translate_line(envelope: &[u8], boot: bool, n: usize, room: &mut [u8]) -> usize
    requires { n < 65536 }
    ensures { Writes (translate_line envelope.now boot n) 0 room result }
{
    let mut lent: [u8; MEMORY_BYTES] = zeroed();
    translate_into(envelope, boot, &mut lent[..n], room)
}

// The run of a program, or of an envelope.
fn run_by(
    program: bool,
    head: &[u8],
    s: &[u8],
    slots: &mut [u8],
    answers: &[u8],
    trace: &mut [u8],
) -> RunAnswer
    requires { length head.now ≡ run_head }
    ensures { Answers (ran_by program head.now s.now slots.old answers.now trace.old) (device_of head.now) slots trace result }
{
    let device = device_of(head);
    let verdict = head[VERDICT] != 0;
    if program {
        return pitvorgas_run_program(s, verdict, device, slots, answers, trace);
    }
    let boot = head[GROUP] != 0;
    pitvorgas_run(s, boot, verdict, device, slots, answers, trace)
}

// A run with lent slots and trace.
fn run_with(
    program: bool,
    head: &[u8],
    before: &[u8],
    answers: &[u8],
    s: &[u8],
    slots: &mut [u8],
    trace: &mut [u8],
    room: &mut [u8],
) -> usize
    requires { (length head.now ≡ run_head) × (length slots.old ≡ length before.now) }
    ensures { Writes (run_filled program head.now before.now answers.now s.now (length trace.old)) 0 room result }
{
    put(slots, 0, before);
    let x = head[FILL];
    fill(trace, x);
    let answer = run_by(program, head, s, slots, answers, trace);
    put_run(room, answer, before, slots, x, trace)
}

pub(crate) fn run_line(
    program: bool,
    head: &[u8],
    before: &[u8],
    answers: &[u8],
    s: &[u8],
    room: &mut [u8],
) -> usize
    requires { (length head.now ≡ run_head) × (length before.now < 65536) }
    ensures { Writes (run_line program head.now before.now answers.now s.now) 0 room result }
{
    let mut slots: [u8; MEMORY_BYTES] = zeroed();
    let mut trace: [u8; MEMORY_BYTES] = zeroed();
    let n = before.len();
    let length = two(head, TRACE);
    run_with(
        program,
        head,
        before,
        answers,
        s,
        &mut slots[..n],
        &mut trace[..length],
        room,
    )
}

// The head at a place of an envelope, and what is left after it.
pub(crate) fn head_line(envelope: &[u8], place: usize, room: &mut [u8]) -> usize
    ensures { Writes (head_line envelope.now place) 0 room result }
{
    let head = head_at(envelope, place);
    let end = match head {
        Ok(h) => h.next,
        Err(f) => f.at,
    };
    put_head(room, 0, head, left_at(envelope, end))
}
