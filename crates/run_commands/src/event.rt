// The event of a command.
ghost use Rattle.std.specs.Prelude.{◌≡◌, ◌+◌, ◌*◌, ◌≤◌, ◌<◌, length};
ghost use Rattle.rules.specs.Answers.{end_of, result_number};
ghost use Rattle.rules.specs.Bytes.{put};
ghost use Rattle.rules.specs.Step.{event_bytes, event};
ghost use Rattle.run_actions.specs.Action.{Ends};

use byte_buffer::put_u16;
use rules::answers::End;
use rules::event_format::{CODE, COMPONENT, EVENT_BYTES, MARK, MARK_2, PLACE, RESULT};

// The byte after the result, which is 0.
const LAST: usize = RESULT + 1;

// A command that started an image was a success.
fn result(end: usize) -> u8
    requires { Ends end }
    ensures { result ≡ result_number (end_of end) }
{
    if end == End::STARTED {
        return 0;
    }
    end as u8
}

pub fn put_event(
    trace: &mut [u8],
    events: usize,
    code: usize,
    component: usize,
    place: usize,
    end: usize,
)
    requires { (event_bytes * events + event_bytes ≤ length trace.old) × (code < 256) × (component < 256) × Ends end }
    ensures { trace.new ≡ put trace.old (event_bytes * events) (event code component place (result_number (end_of end))) }
{
    let at = EVENT_BYTES * events;
    trace[at] = MARK;
    trace[at + 1] = MARK_2;
    trace[at + CODE] = code as u8;
    trace[at + COMPONENT] = component as u8;
    put_u16(trace, at + PLACE, place);
    trace[at + RESULT] = result(end);
    trace[at + LAST] = 0;
}
