// A command that holds no sequence, and the state of a run between commands.
#![tactic(auto)]

ghost use Rattle.std.specs.Prelude.{◌≡◌};
ghost use Rattle.run_leaf.specs.Leaf.{LeafJob, LeafRuns, run_at, caught_by};

use manifest_accessors::arguments::{COERCE_TRUE, component, read_one};
use manifest_accessors::heads::Opened;
use rules::answers::End;
use rules::controller::{Memory, Sixteen};
use run_actions::Progress;
use run_commands::act::Command;
use run_perform::perform;
use run_slots::params::either;

// Where the next command is, the index and coerce of the sequence, events written, answers used, and the number of the
// end of what was done last.
#[derive(Clone, Copy)]
pub struct Run {
    pub next: usize,
    pub index: usize,
    pub coerce: usize,
    pub events: usize,
    pub used: usize,
    pub end: usize,
}

// The command at run.next, which holds no sequence; `head` is its code.
pub fn leaf(
    s: &[u8],
    head: Opened,
    run: Run,
    vendor: &Sixteen,
    class: &Sixteen,
    answers: &[u8],
    slots: &mut [u8],
    memory: &mut Memory,
    trace: &mut [u8],
) -> Run
    requires { LeafJob s.now head run vendor.now class.now answers.now slots.old memory.old trace.old }
    ensures { LeafRuns s.now head run vendor.now class.now answers.now slots memory trace result }
{
    let code = head.value;
    let a = read_one(s, code, head.next);
    let index = component(code, a.value, run.index);
    let d = perform(
        s,
        Command {
            code,
            value: a.value,
            index,
            place: run.next,
            events: run.events,
            used: run.used,
        },
        a.params,
        vendor,
        class,
        answers,
        slots,
        memory,
        trace,
    );
    Run {
        next: a.next,
        index,
        coerce: either(a.coerce, a.coerce, run.coerce),
        events: d.events,
        used: d.used,
        end: d.end,
    }
}

// The run at `at`: the index and coerce of the sequence `holder`, what `now` has done, and that end.
pub fn run_at(holder: Run, at: usize, now: Progress, end: usize) -> Run
    ensures { result ≡ run_at holder at now end }
{
    Run {
        next: at,
        index: holder.index,
        coerce: holder.coerce,
        events: now.events,
        used: now.used,
        end,
    }
}

// Where a condition failed in a sequence that a run sequence runs and coerce is true, a success.
pub fn caught(run: Run, coercible: bool, coerce: usize) -> Progress
    ensures { result ≡ caught_by coercible coerce run }
{
    let success = coercible && coerce == COERCE_TRUE && run.end == End::CONDITION_FAILED;
    Progress {
        events: run.events,
        used: run.used,
        end: if success { End::FINISHED } else { run.end },
    }
}
