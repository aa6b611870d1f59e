// The run of sequences and commands: sequences hold commands and commands hold sequences.
#![tactic(auto)]

ghost use Rattle.run_sequence.specs.Cycle.{CommandJob, SequenceJob, CommandRuns, SequenceRuns};

use manifest_accessors::arguments::COERCE_FALSE;
use manifest_accessors::heads::{open, skip};
use rules::answers::End;
use rules::controller::{Memory, Sixteen};
use rules_kinds::{argument_of, holds_alternatives, holds_sequence};
use run_actions::{Progress, ended};
use run_leaf::{Run, caught, leaf, run_at};

// How a sequence is run: how deep it and those in it may be. `coercible`: a run sequence runs it, so that its coerce makes a failed condition
// a success.
#[derive(Clone, Copy)]
pub struct Level {
    pub depth: usize,
    pub coercible: bool,
}

// The sequence at run.next.
#[cycle(run_command_run_sequence)]
pub fn run_sequence(
    s: &[u8],
    level: Level,
    run: Run,
    vendor: &Sixteen,
    class: &Sixteen,
    answers: &[u8],
    slots: &mut [u8],
    memory: &mut Memory,
    trace: &mut [u8],
) -> Progress
    requires { SequenceJob s.now level.depth run vendor.now class.now answers.now slots.old memory.old trace.old }
    ensures { SequenceRuns s.now level run vendor.now class.now answers.now slots memory trace result }
{
    let h = open(s, run.next);
    let commands = h.value / 2;
    let mut now = Run {
        next: h.next,
        index: run.index,
        coerce: COERCE_FALSE,
        events: run.events,
        used: run.used,
        end: End::FINISHED,
    };
    for _ in 0..commands {
        let coerce = now.coerce;
        now = run_command(
            s,
            level.depth - 1,
            now,
            vendor,
            class,
            answers,
            slots,
            memory,
            trace,
        );
        if now.end != End::FINISHED {
            return caught(now, level.coercible, coerce);
        }
    }
    ended(End::FINISHED, now.events, now.used)
}

// The command at run.next; the sequences that it holds may be `depth` deep.
#[cycle(run_command_run_sequence)]
fn run_command(
    s: &[u8],
    depth: usize,
    run: Run,
    vendor: &Sixteen,
    class: &Sixteen,
    answers: &[u8],
    slots: &mut [u8],
    memory: &mut Memory,
    trace: &mut [u8],
) -> Run
    requires { CommandJob s.now depth run vendor.now class.now answers.now slots.old memory.old trace.old }
    ensures { CommandRuns s.now depth run vendor.now class.now answers.now slots memory trace result }
{
    let c = open(s, run.next);
    let code = c.value;
    let kind = argument_of(code);
    if holds_sequence(kind) {
        let b = open(s, c.next);
        let level = Level {
            depth,
            coercible: true,
        };
        let done = ended(End::FINISHED, run.events, run.used);
        let from = run_at(run, b.next, done, End::FINISHED);
        let inner = run_sequence(s, level, from, vendor, class, answers, slots, memory, trace);
        return run_at(run, b.next + b.value, inner, inner.end);
    }
    if holds_alternatives(kind) {
        let h = open(s, c.next);
        let mut p = h.next;
        let mut now = ended(End::CONDITION_FAILED, run.events, run.used);
        for left in (0..h.value).rev() {
            let b = open(s, p);
            let level = Level {
                depth,
                coercible: false,
            };
            let from = run_at(run, b.next, now, End::FINISHED);
            now = run_sequence(s, level, from, vendor, class, answers, slots, memory, trace);
            p = b.next + b.value;
            if now.end != End::CONDITION_FAILED {
                return run_at(run, skip(s, left, p), now, now.end);
            }
        }
        return run_at(run, p, now, End::CONDITION_FAILED);
    }
    leaf(s, c, run, vendor, class, answers, slots, memory, trace)
}
