// The events of a trace, as a table in lent room.
#![tactic(auto)]

ghost use Rattle.std.specs.Prelude.{◌≡◌, ◌+◌, ◌*◌, ◌/◌, ◌≤◌, length, get_or};
ghost use Rattle.rules.specs.Step.{event_bytes};
ghost use Rattle.text.specs.Text.{Writes};
ghost use Rattle.text_pieces.specs.Pieces.{lines};
ghost use Rattle.depot_events.specs.Notes.{note_of_byte};
ghost use Rattle.depot_events.specs.Events.{note_words, note_text, fields_text, event_text, events_text};

pub mod notes;

use byte_buffer::{two, wide};
use notes::{NO_NOTE, Note};
use rules::event_format::{CODE, COMPONENT, EVENT_BYTES, PLACE, RESULT};
use text::{least, put, put_byte, put_spaces};
use text_names::{put_command_wide, put_result};
use text_numbers::put_padded;

// The note of an event, none if there is no byte for it.
fn note_at(notes: &[u8], k: usize) -> Option<Note>
    ensures { result ≡ note_of_byte (get_or notes.now k 0) }
{
    Note::of_byte(notes.get(k).copied().unwrap_or(NO_NOTE))
}

// What a note adds to the result.
fn note_words(note: Note) -> &'static [u8]
    ensures { result.now ≡ note_words note }
{
    match note {
        Note::SlotAbsent => b": slot absent",
        Note::OtherDigest => b": other digest",
        Note::OtherSize => b": other size",
    }
}

fn put_note(room: &mut [u8], at: usize, note: Option<Note>) -> usize
    ensures { Writes (note_text note) at room result }
{
    match note {
        Some(note) => put(room, at, note_words(note)),
        None => at,
    }
}

fn put_fields(
    room: &mut [u8],
    at: usize,
    component: usize,
    place: usize,
    res: usize,
    note: Option<Note>,
) -> usize
    ensures { Writes (fields_text component place res note) at room result }
{
    let a = put_padded(room, at, component, 11);
    let b = put_padded(room, a, place, 7);
    let c = put_padded(room, b, res, 8);
    let d = put_spaces(room, c, 2);
    let e = put_result(room, d, res);
    let f = put_note(room, e, note);
    put_byte(room, f, b'\n')
}

fn put_event(room: &mut [u8], at: usize, trace: &[u8], notes: &[u8], k: usize) -> usize
    requires { event_bytes * k + event_bytes ≤ length trace.now }
    ensures { Writes (event_text trace.now notes.now k) at room result }
{
    let p = EVENT_BYTES * k;
    let code = wide(trace[p + CODE]);
    let component = wide(trace[p + COMPONENT]);
    let place = two(trace, p + PLACE);
    let result = wide(trace[p + RESULT]);
    let a = put_padded(room, at, k, 5);
    let b = put_spaces(room, a, 2);
    let c = put_command_wide(room, b, code, 22);
    put_fields(room, c, component, place, result, note_at(notes, k))
}

fn put_each(room: &mut [u8], at: usize, trace: &[u8], notes: &[u8], n: usize) -> usize
    requires { event_bytes * n ≤ length trace.now }
    ensures { Writes (lines (event_text trace.now notes.now) n) at room result }
{
    let mut to = at;
    for k in 0..n {
        to = put_event(room, to, trace, notes, k);
    }
    to
}

// The first events of the trace, as many of them as lie in it, each with its note.
pub fn put_events(room: &mut [u8], at: usize, trace: &[u8], notes: &[u8], count: usize) -> usize
    ensures { Writes (events_text trace.now notes.now count) at room result }
{
    let to = put(
        room,
        at,
        b"event  command                 component  place  result\n",
    );
    let n = least(count, trace.len() / EVENT_BYTES);
    put_each(room, to, trace, notes, n)
}
