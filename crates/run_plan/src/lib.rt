// The sequences of a group's plan, one after the other.
#![tactic(auto)]

ghost use Rattle.std.specs.Prelude.{◌≡◌};
ghost use Rattle.run_plan.specs.Plan.{start_of, PlanJob, PlanRuns};

use manifest_accessors::arguments::COERCE_FALSE;
use rules::answers::End;
use rules::controller::{Controller, Memory, PlanStarts, Sixteen};
use run_actions::Progress;
use run_leaf::Run;
use run_sequence::{Level, run_sequence};

// The run at the start of the sequence at `from`, with what `now` has done.
fn start_of(from: usize, now: Progress) -> Run
    ensures { result ≡ start_of from now }
{
    Run {
        next: from,
        index: 0,
        coerce: COERCE_FALSE,
        events: now.events,
        used: now.used,
        end: End::FINISHED,
    }
}

// The sequences of a plan, by their `total` starts, until one does not finish.
pub fn run_plan(
    s: &[u8],
    starts: &PlanStarts,
    total: usize,
    vendor: &Sixteen,
    class: &Sixteen,
    answers: &[u8],
    slots: &mut [u8],
    memory: &mut Memory,
    trace: &mut [u8],
) -> Progress
    requires { PlanJob s.now starts.now total vendor.now class.now answers.now slots.old memory.old trace.old }
    ensures { PlanRuns s.now starts.now total vendor.now class.now answers.now slots memory trace result }
{
    let level = Level {
        depth: Controller::DEPTH,
        coercible: false,
    };
    let mut now = Progress {
        events: 0,
        used: 0,
        end: End::FINISHED,
    };
    for from in &starts[..total] {
        let run = start_of(*from, now);
        now = run_sequence(s, level, run, vendor, class, answers, slots, memory, trace);
        if now.end != End::FINISHED {
            break;
        }
    }
    now
}
