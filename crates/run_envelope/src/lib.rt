// A run: the envelope is checked, the run is admitted, and the sequences of the group's plan are run.
#![tactic(auto)]

ghost use Rattle.manifest_accessors.specs.Accepted.{Accepted};
ghost use Rattle.run_envelope.specs.Envelope.{Runs};

use check_envelope::check;
use manifest_plan::plan;
use rules::answers::Group;
use rules::controller::{Controller, MEMORY_NUMBERS, PLAN_SEQUENCES, Places, SectionPlaces};
use run_admission::{Request, admit};
use run_ending::{Outcome, ended, number_after, refused};
use run_plan::run_plan;

// The run of an envelope that check has accepted, by what check reported.
fn run_checked(
    s: &[u8],
    request: Request,
    ids: &Places,
    sections: &SectionPlaces,
    device: Controller,
    slots: &mut [u8],
    answers: &[u8],
    trace: &mut [u8],
) -> Outcome
    requires { Accepted s.now request.number request.components ids.now sections.now }
    ensures { Runs s.now request.group request.verdict device slots answers.now trace result }
{
    let mut memory = [0usize; MEMORY_NUMBERS];
    if let Err(refusal) = admit(s, request, ids, device, slots, answers, trace, &mut memory) {
        return refused(refusal, 0, device);
    }
    let group = request.group;
    let vendor = device.vendor;
    let class = device.class;
    let mut starts = [0usize; PLAN_SEQUENCES];
    let total = plan(group, sections, &mut starts);
    let done = run_plan(
        s,
        &starts,
        total,
        &vendor,
        &class,
        answers,
        slots,
        &mut memory,
        trace,
    );
    Outcome {
        answer: Ok(ended(done.end, done.events, done.used, trace)),
        number: number_after(group, done.end, request.number, device.number),
    }
}

// Runs the envelope s for a group; `verdict`: its signature was verified. On a refusal slots and trace are as lent.
pub fn run(
    s: &[u8],
    group: Group,
    verdict: bool,
    device: Controller,
    slots: &mut [u8],
    answers: &[u8],
    trace: &mut [u8],
) -> Outcome
    ensures { Runs s.now group verdict device slots answers.now trace result }
{
    match check(s) {
        Err(fault) => refused(fault.refusal, fault.at, device),
        Ok(report) => {
            let ids = report.ids;
            let sections = report.sections;
            let request = Request {
                group,
                number: report.number,
                components: report.components,
                verdict,
            };
            run_checked(s, request, &ids, &sections, device, slots, answers, trace)
        }
    }
}
