// What a run answers: how it ended, or a refusal; and the device's number after it.
#![tactic(auto)]

ghost use Rattle.std.specs.Prelude.{◌≡◌, cond, eqb};
ghost use Rattle.rules.specs.Answers.{end_of};
ghost use Rattle.rules.specs.Got as Got;
ghost use Rattle.rules.specs.Run.{last_place, number_after};
ghost use Rattle.run_ending.specs.Answer.{outcome_of, LastEvent, ending_of};

use byte_buffer::two;
use rules::answers::{End, Fault, Group, Refusal};
use rules::controller::Controller;
use rules::event_format::{EVENT_BYTES, PLACE};

// How a run ended.
#[derive(Clone, Copy)]
pub struct Ending {
    pub end: End,
    // the place of the last event, 0 where the run finished
    pub place: usize,
    pub events: usize,
    pub used: usize,
}

// How the run ended or why it was refused, and the device's number after it.
#[derive(Clone, Copy)]
pub struct Outcome {
    pub answer: Result<Ending, Fault>,
    pub number: usize,
}

// A refusal leaves the device's number as it is.
pub fn refused(refusal: Refusal, place: usize, device: Controller) -> Outcome
    ensures { result ≡ outcome_of device (Got.refused refusal place) }
{
    Outcome {
        answer: Err(Fault { refusal, at: place }),
        number: device.number,
    }
}

// The bytes of an event from its place on.
const FROM_PLACE: usize = EVENT_BYTES - PLACE;

// The place of the last event, 0 where the run finished.
fn last_place(end: usize, events: usize, trace: &[u8]) -> usize
    requires { LastEvent end events trace.now }
    ensures { result ≡ cond (eqb end 0) 0 (last_place events trace.now) }
{
    if end == End::FINISHED {
        return 0;
    }
    two(trace, EVENT_BYTES * events - FROM_PLACE)
}

// How a run ended, by the number of its end.
pub fn ended(end: usize, events: usize, used: usize, trace: &[u8]) -> Ending
    requires { LastEvent end events trace.now }
    ensures { result ≡ ending_of end events used trace.now }
{
    Ending {
        end: End::of(end),
        place: last_place(end, events, trace),
        events,
        used,
    }
}

// The device takes the manifest's number exactly when install finishes.
pub fn number_after(group: Group, end: usize, new: usize, old: usize) -> usize
    ensures { result ≡ number_after group (end_of end) new old }
{
    match group {
        Group::Install => if end == End::FINISHED { new } else { old },
        Group::Boot => old,
    }
}
