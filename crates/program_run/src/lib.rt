// The run of a program.
#![tactic(auto)]

ghost use Rattle.program_run.specs.Known.{Known};
ghost use Rattle.program_run.specs.Program.{Runs};

use program_steps::run_records;
use program_test::test::{Tested, test_program};
use rules::answers::Refusal;
use rules::controller::{Controller, MEMORY_NUMBERS};
use run_admission::{Request, admit};
use run_ending::{Outcome, ended, number_after, refused};

// The run of a program that the test has accepted, by what the test found.
fn run_tested(
    p: &[u8],
    t: Tested,
    verdict: bool,
    device: Controller,
    slots: &mut [u8],
    answers: &[u8],
    trace: &mut [u8],
) -> Outcome
    requires { Known p.now t }
    ensures { Runs p.now verdict device slots answers.now trace result }
{
    let request = Request {
        group: t.group,
        number: t.number,
        components: t.components,
        verdict,
    };
    // a copy: to lend the program's own moves all that was found by memcpy, and the library for C needs nothing from outside but memset
    let ids = t.ids;
    let mut memory = [0usize; MEMORY_NUMBERS];
    if let Err(refusal) = admit(p, request, &ids, device, slots, answers, trace, &mut memory) {
        return refused(refusal, 0, device);
    }
    let vendor = device.vendor;
    let class = device.class;
    let done = run_records(
        p,
        t.records,
        t.from,
        &vendor,
        &class,
        answers,
        slots,
        &mut memory,
        trace,
    );
    Outcome {
        answer: Ok(ended(done.end, done.events, done.used, trace)),
        number: number_after(t.group, done.end, t.number, device.number),
    }
}

// Runs the program p, whose group and number it says itself: `verdict` is whether its signature was verified. On a refusal the slots and the
// trace are as lent.
pub fn run_program(
    p: &[u8],
    verdict: bool,
    device: Controller,
    slots: &mut [u8],
    answers: &[u8],
    trace: &mut [u8],
) -> Outcome
    ensures { Runs p.now verdict device slots answers.now trace result }
{
    let Some(t) = test_program(p) else {
        return refused(Refusal::BadProgram, 0, device);
    };
    run_tested(p, t, verdict, device, slots, answers, trace)
}
