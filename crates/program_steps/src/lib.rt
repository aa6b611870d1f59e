// The run of a program's records, step by step: one record each.
#![tactic(auto)]

ghost use Rattle.program_steps.specs.Step.{OnwardJob, Onward, ExecJob, Executes, StepAsked, Steps, RunJob, start_at, RecordsRun};

use byte_buffer::{two, wide};
use program_commands::{CommandRecord, act};
use program_jump::{advance, jump};
use rules::answers::End;
use rules::controller::{Memory, Sixteen};
use rules::program_format::{CODE, COMPONENT, JUMP, NO_TARGET, PLACE, TARGET};
use run_actions::{Progress, ended};
use run_commands::event::put_event;

// How far a run is: the next record and its number, events written, answers used, and the number of the end of what was done last,
// 0 to go on.
#[derive(Clone, Copy)]
pub struct ProgramState {
    pub at: usize,
    pub n: usize,
    pub events: usize,
    pub used: usize,
    pub end: usize,
}

// Where a run goes on after a command whose next record is record n at `at`: there or, where its condition failed, at its target.
fn onward(p: &[u8], at: usize, n: usize, target: usize, done: Progress) -> ProgramState
    requires { OnwardJob p.now at n target }
    ensures { (j : OnwardJob p.now at n target) → Onward p.now j.group j.components j.total n at j.place target done result }
{
    if done.end == End::CONDITION_FAILED && target != NO_TARGET {
        return ProgramState {
            at: advance(p, at, n, target),
            n: target,
            events: done.events,
            used: done.used,
            end: End::FINISHED,
        };
    }
    ProgramState {
        at,
        n,
        events: done.events,
        used: done.used,
        end: done.end,
    }
}

// The record at current.at, which is a command, is done.
fn execute(
    p: &[u8],
    current: ProgramState,
    vendor: &Sixteen,
    class: &Sixteen,
    answers: &[u8],
    slots: &mut [u8],
    memory: &mut Memory,
    trace: &mut [u8],
) -> ProgramState
    requires { ExecJob p.now current vendor.now class.now answers.now slots.old memory.old trace.old }
    ensures { Executes p.now current vendor.now class.now answers.now slots memory trace result }
{
    let at = current.at;
    let events = current.events;
    let code = wide(p[at + CODE]);
    let index = wide(p[at + COMPONENT]);
    let x = CommandRecord {
        code,
        index,
        at,
        used: current.used,
    };
    let d = act(p, x, vendor, class, answers, slots, memory);
    let end = d.end;
    put_event(trace, events, code, index, two(p, at + PLACE), end);
    let done = ended(end, events + 1, d.used);
    onward(p, d.next, current.n + 1, two(p, at + TARGET), done)
}

// The record at current.at: the jump is followed, or the command done.
fn step(
    p: &[u8],
    records: usize,
    current: ProgramState,
    vendor: &Sixteen,
    class: &Sixteen,
    answers: &[u8],
    slots: &mut [u8],
    memory: &mut Memory,
    trace: &mut [u8],
) -> ProgramState
    requires { StepAsked p.now records current vendor.now class.now answers.now slots.old memory.old trace.old }
    ensures { Steps p.now records current vendor.now class.now answers.now slots memory trace result }
{
    let at = current.at;
    if wide(p[at + CODE]) == JUMP {
        let place = jump(p, at, current.n);
        return ProgramState {
            at: place.at,
            n: place.n,
            events: current.events,
            used: current.used,
            end: End::FINISHED,
        };
    }
    execute(p, current, vendor, class, answers, slots, memory, trace)
}

// Steps until one ends the run or the records are over.
pub fn run_records(
    p: &[u8],
    records: usize,
    from: usize,
    vendor: &Sixteen,
    class: &Sixteen,
    answers: &[u8],
    slots: &mut [u8],
    memory: &mut Memory,
    trace: &mut [u8],
) -> ProgramState
    requires { RunJob p.now records (start_at from) vendor.now class.now answers.now slots.old memory.old trace.old }
    ensures { RecordsRun p.now records from vendor.now class.now answers.now slots memory trace result }
{
    let mut current = ProgramState {
        at: from,
        n: 0,
        events: 0,
        used: 0,
        end: End::FINISHED,
    };
    // no `for`: a step may lead past several records
    while current.n < records {
        current = step(
            p, records, current, vendor, class, answers, slots, memory, trace,
        );
        if current.end != End::FINISHED {
            return current;
        }
    }
    current
}
