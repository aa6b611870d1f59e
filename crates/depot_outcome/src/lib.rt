// What a run did, as text in lent room.
#![tactic(auto)]

ghost use Rattle.text.specs.Text.{Writes};
ghost use Rattle.depot_outcome.specs.Outcome.{end_text, counts_text, ran_text, stopped_text, run_text};

use depot_events::put_events;
use depot_reasons::put_reason;
use depot_refusals::put_refused;
use depot_run_types::Subject;
use depot_slot_lines::put_slots;
use pitvorgas_answers::RunAnswer;
use rules::controller::Controller;
use text::{least, put, put_byte};
use text_pieces::{put_counted, put_labelled};

fn put_end(room: &mut [u8], at: usize, end: usize, place: usize) -> usize
    ensures { Writes (end_text end place) at room result }
{
    let a = put_labelled(room, at, b"end ", end);
    let b = put(room, a, b" (");
    let c = text_names::put_end(room, b, end);
    put_labelled(room, c, b") at ", place)
}

fn put_counts(room: &mut [u8], at: usize, events: usize, used: usize) -> usize
    ensures { Writes (counts_text events used) at room result }
{
    let a = put_counted(room, at, b", ", events, b" event");
    put_counted(room, a, b", ", used, b" answer")
}

// The end of a run that was not refused.
fn put_ran(room: &mut [u8], at: usize, answer: RunAnswer) -> usize
    ensures { Writes (ran_text answer) at room result }
{
    let a = put_end(room, at, answer.end, answer.place);
    let b = put_counts(room, a, answer.events, answer.used);
    let c = put_labelled(room, b, b" used, number ", answer.number);
    put_byte(room, c, b'\n')
}

// A refusal, and what it is about.
fn put_stopped(
    room: &mut [u8],
    at: usize,
    answer: RunAnswer,
    subject: Subject,
    s: &[u8],
    slots: &[u8],
) -> usize
    ensures { Writes (stopped_text answer subject s.now slots.now) at room result }
{
    let a = put_refused(room, at, answer.refusal, answer.place, s);
    put_reason(room, a, answer.refusal, subject, answer.number, s, slots)
}

// What a run of s, which is about `subject`, answered: a refusal, or the events, the end and the slots.
pub fn put_run(
    room: &mut [u8],
    at: usize,
    answer: RunAnswer,
    subject: Subject,
    s: &[u8],
    trace: &[u8],
    notes: &[u8],
    slots: &[u8],
) -> usize
    ensures { Writes (run_text answer subject s.now trace.now notes.now slots.now) at room result }
{
    if answer.refusal != 0 {
        return put_stopped(room, at, answer, subject, s, slots);
    }
    let n = least(subject.components, Controller::COMPONENTS);
    let a = put_events(room, at, trace, notes, answer.events);
    let b = put_ran(room, a, answer);
    put_slots(room, b, slots, s, &subject.ids, n)
}
