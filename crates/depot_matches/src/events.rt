// The events of a trace, read again.
ghost use Rattle.std.specs.Prelude.{◌≡◌, ◌+◌, ◌*◌, ◌≤◌, length};
ghost use Rattle.rules.specs.Step.{event_bytes};
ghost use Rattle.depot_matches.specs.Events.{event_at, is_of, fetches_in, fetches_before};

use byte_buffer::{two, wide};
use rules::answers::End;
use rules::codes;
use rules::event_format::{CODE, COMPONENT, EVENT_BYTES, PLACE, RESULT};

#[derive(Clone, Copy)]
pub struct Event {
    pub code: usize,
    pub component: usize,
    pub place: usize,
    pub result: usize,
}

#[tactic(auto, unfolding(crate::specs::Events::event_at))]
pub(crate) fn event_at(trace: &[u8], i: usize) -> Event
    requires { event_bytes * i + event_bytes ≤ length trace.now }
    ensures { result ≡ event_at trace.now i }
{
    let at = EVENT_BYTES * i;
    Event {
        code: wide(trace[at + CODE]),
        component: wide(trace[at + COMPONENT]),
        place: two(trace, at + PLACE),
        result: wide(trace[at + RESULT]),
    }
}

pub(crate) fn is_of(e: Event, code: usize, res: usize) -> bool
    ensures { result ≡ is_of code res e }
{
    e.code == code && e.result == res
}

fn fetches_in(e: Event) -> usize
    ensures { (result ≡ fetches_in e) × (result ≤ 1) }
{
    usize::from(is_of(e, codes::FETCH, End::FINISHED))
}

// How many fetches were done before event n.
pub(crate) fn fetches_before(trace: &[u8], n: usize) -> usize
    requires { event_bytes * n ≤ length trace.now }
    ensures { (result ≡ fetches_before trace.now n) × (result ≤ n) }
{
    let mut count = 0;
    for i in 0..n {
        count += fetches_in(event_at(trace, i));
    }
    count
}
