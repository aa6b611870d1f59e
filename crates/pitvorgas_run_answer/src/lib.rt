// The outcome of a run in numbers, for C.
#![tactic(auto)]

ghost use Rattle.std.specs.Prelude.{◌≡◌};
ghost use Rattle.pitvorgas_run_answer.specs.Answer.{answer_of};

use pitvorgas_answers::RunAnswer;
use run_ending::Outcome;

pub fn answer_of(o: Outcome) -> RunAnswer
    ensures { result ≡ answer_of o }
{
    match o.answer {
        Err(fault) => RunAnswer {
            refusal: fault.refusal.number(),
            place: fault.at,
            end: 0,
            events: 0,
            used: 0,
            number: o.number,
        },
        Ok(ending) => RunAnswer {
            refusal: 0,
            place: ending.place,
            end: ending.end.number(),
            events: ending.events,
            used: ending.used,
            number: o.number,
        },
    }
}
