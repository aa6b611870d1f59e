// Check's answer in numbers, for C.
#![tactic(auto)]

ghost use Rattle.std.specs.Prelude.{◌≡◌};
ghost use Rattle.pitvorgas_check_answer.specs.Answer.{answer_of};

use check_envelope::report::Report;
use pitvorgas_answers::CheckAnswer;
use rules::answers::Fault;
use rules::controller::{PLACES, SECTION_PLACES};

pub fn answer_of(answer: Result<Report, Fault>) -> CheckAnswer
    ensures { result ≡ answer_of answer }
{
    match answer {
        Err(fault) => CheckAnswer {
            refusal: fault.refusal.number(),
            place: fault.at,
            number: 0,
            components: 0,
            ids: [0usize; PLACES],
            sections: [0usize; SECTION_PLACES],
            from: 0,
            to: 0,
        },
        Ok(report) => {
            let ids = report.ids;
            let sections = report.sections;
            CheckAnswer {
                refusal: 0,
                place: 0,
                number: report.number,
                components: report.components,
                ids,
                sections,
                from: report.manifest.from,
                to: report.manifest.to,
            }
        }
    }
}
