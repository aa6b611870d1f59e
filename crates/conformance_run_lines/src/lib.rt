// The line of a run.
#![tactic(auto)]

ghost use Rattle.std.specs.Prelude.{◌≡◌, ◌*◌, ◌/◌, length};
ghost use Rattle.text.specs.Text.{Writes, least as Text·least};
ghost use Rattle.rules.specs.Slots.{slot_bytes};
ghost use Rattle.rules.specs.Step.{event_bytes};
ghost use Rattle.run_slots.specs.Slot.{Holds};
ghost use Rattle.conformance_run_lines.specs.Lines.{name_text, image_text, slots_text, events_text, end_text, ran_text, separator as Lines·separator};

use byte_buffer::wide;
use conformance_format::{NEWLINE, put_bytes, put_format, put_refused};
use pitvorgas_answers::RunAnswer;
use rules::controller::Controller;
use rules::event_format::EVENT_BYTES;
use rules::slot_format::{IDENTIFIER, IMAGE, SLOT_BYTES, SLOT_DIGEST};
use run_slots::slot::{capacity, size};
use text::{least, put_byte};
use text_numbers::put_hex;

fn put_separator(room: &mut [u8], at: usize, k: usize) -> usize
    ensures { Writes (Lines·separator k) at room result }
{
    if k == 0 {
        return at;
    }
    put_byte(room, at, b',')
}

fn put_name(room: &mut [u8], at: usize, slots: &[u8], k: usize) -> usize
    requires { Holds slots.now k }
    ensures { Writes (name_text slots.now k) at room result }
{
    let from = SLOT_BYTES * k + IDENTIFIER;
    let to = from + least(wide(slots[SLOT_BYTES * k]), Controller::IDENTIFIER_BYTES);
    let a = put_separator(room, at, k);
    put_bytes(room, a, &slots[from..to])
}

fn put_image(room: &mut [u8], at: usize, slots: &[u8], k: usize) -> usize
    requires { Holds slots.now k }
    ensures { Writes (image_text slots.now k) at room result }
{
    let numbers = [
        capacity(slots, k),
        wide(slots[SLOT_BYTES * k + IMAGE]),
        size(slots, k),
    ];
    let from = SLOT_BYTES * k + SLOT_DIGEST;
    let to = from + Controller::DIGEST_BYTES;
    let a = put_format(room, at, b":%:%:%:", &numbers);
    put_hex(room, a, &slots[from..to])
}

fn put_slots(room: &mut [u8], at: usize, slots: &[u8]) -> usize
    ensures { Writes (slots_text slots.now (length slots.now / slot_bytes)) at room result }
{
    let mut to = at;
    for k in 0..slots.len() / SLOT_BYTES {
        to = put_name(room, to, slots, k);
        to = put_image(room, to, slots, k);
    }
    to
}

// Where the events end in a trace of that length.
pub fn events_end(events: usize, length: usize) -> usize
    ensures { result ≡ Text·least (events * event_bytes) length }
{
    if length / EVENT_BYTES < events {
        return length;
    }
    events * EVENT_BYTES
}

fn put_events(room: &mut [u8], at: usize, events: usize, trace: &[u8]) -> usize
    ensures { Writes (events_text events trace.now) at room result }
{
    let n = events_end(events, trace.len());
    let a = put_byte(room, at, b' ');
    let b = put_bytes(room, a, &trace[..n]);
    put_byte(room, b, NEWLINE)
}

fn put_end(room: &mut [u8], at: usize, answer: RunAnswer, slots: &[u8], trace: &[u8]) -> usize
    ensures { Writes (end_text answer slots.now trace.now) at room result }
{
    let numbers = [
        answer.end,
        answer.place,
        answer.events,
        answer.used,
        answer.number,
    ];
    let a = put_format(room, at, b"end % % % % % ", &numbers);
    let b = put_slots(room, a, slots);
    put_events(room, b, answer.events, trace)
}

pub fn put_ran(room: &mut [u8], at: usize, answer: RunAnswer, slots: &[u8], trace: &[u8]) -> usize
    ensures { Writes (ran_text answer slots.now trace.now) at room result }
{
    if answer.refusal == 0 {
        return put_end(room, at, answer, slots, trace);
    }
    put_refused(room, at, answer.refusal, answer.place)
}
