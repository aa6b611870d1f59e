// What the depot tool runs on a described device, and what the run is given.
#![tactic(auto)]

ghost use Rattle.std.specs.Prelude.{◌≡◌};
ghost use Rattle.pitvorgas.specs.Answers.{given, Answers};
ghost use Rattle.depot_runs.specs.Ran.{device_of, ran_as};

use depot_run_types::Run;
use device_description::Scenario;
use pitvorgas::{pitvorgas_run, pitvorgas_run_program};
use pitvorgas_answers::{Device, RunAnswer};

fn device_of(d: Scenario) -> Device
    ensures { result ≡ device_of d }
{
    // Copied first: the borrow checker takes no array from a field into a literal.
    let vendor = d.vendor;
    let class = d.class;
    Device {
        vendor,
        class_id: class,
        number: d.number,
        event: d.event,
    }
}

pub fn run_as(
    what: Run,
    bytes: &[u8],
    d: Scenario,
    slots: &mut [u8],
    answers: &[u8],
    trace: &mut [u8],
) -> RunAnswer
    ensures { Answers (ran_as what bytes.now (given d.verdict (device_of d) slots.old answers.now trace.old)) (device_of d) slots trace result }
{
    let device = device_of(d);
    match what {
        Run::Install => pitvorgas_run(bytes, false, d.verdict, device, slots, answers, trace),
        Run::Boot => pitvorgas_run(bytes, true, d.verdict, device, slots, answers, trace),
        Run::Program => pitvorgas_run_program(bytes, d.verdict, device, slots, answers, trace),
    }
}
