// The five jobs and the program test as C has them: numbers, slices, and structs by value (pitvorgas_answers); pitvorgas_c exports each under
// its name. The promises give refusals and ends by their numbers in document 01 (rules/specs/Answers.antt: refusal_number, end_number).
#![tactic(auto)]

ghost use Rattle.std.specs.Prelude.{◌≡◌, length};
ghost use Rattle.rules.specs.Got.{accepted};
ghost use Rattle.rules.specs.Check as Check;
ghost use Rattle.rules.specs.Newer as Newer;
ghost use Rattle.rules.specs.Run.{run_envelope};
ghost use Rattle.rules.specs.Program as Program;
ghost use Rattle.rules.specs.ProgramTest.{program_in};
ghost use Rattle.rules.specs.ProgramRun.{run_program};
ghost use Rattle.pitvorgas_answers.specs.Inputs.{group_of};
ghost use Rattle.pitvorgas.specs.Answers.{checked_of, newer_of, Translation, given, Answers};

use check_envelope::check;
use check_newer::{Newest, choose};
use pitvorgas_answers::{
    CheckAnswer, Device, NewerAnswer, RunAnswer, TranslateAnswer, controller_of, group_of,
};
use program_run::run_program;
use program_test::test::test_program;
use run_envelope::run;
use translate::translate;

pub fn pitvorgas_check(envelope: &[u8]) -> CheckAnswer
    ensures { result ≡ checked_of (Check.check envelope.now) }
{
    pitvorgas_check_answer::answer_of(check(envelope))
}

pub fn pitvorgas_newer(first: &[u8], second: &[u8]) -> NewerAnswer
    ensures { result ≡ newer_of (Newer.newer first.now second.now) }
{
    match choose(first, second) {
        Newest::First(place) => NewerAnswer {
            second: 0,
            from: place.from,
            to: place.to,
        },
        Newest::Second(place) => NewerAnswer {
            second: 1,
            from: place.from,
            to: place.to,
        },
    }
}

pub fn pitvorgas_translate(envelope: &[u8], boot: bool, room: &mut [u8]) -> TranslateAnswer
    ensures { Translation (Program.translate envelope.now (group_of boot) (length room.old)) room result }
{
    match translate(envelope, group_of(boot), room) {
        Ok(length) => TranslateAnswer {
            refusal: 0,
            place: 0,
            length,
        },
        Err(fault) => TranslateAnswer {
            refusal: fault.refusal.number(),
            place: fault.at,
            length: 0,
        },
    }
}

pub fn pitvorgas_test_program(program: &[u8]) -> bool
    ensures { result ≡ accepted (program_in program.now) }
{
    test_program(program).is_some()
}

pub fn pitvorgas_run(
    envelope: &[u8],
    boot: bool,
    verdict: bool,
    device: Device,
    slots: &mut [u8],
    answers: &[u8],
    trace: &mut [u8],
) -> RunAnswer
    ensures { Answers (run_envelope envelope.now (group_of boot) (given verdict device slots.old answers.now trace.old)) device slots trace result }
{
    let o = run(
        envelope,
        group_of(boot),
        verdict,
        controller_of(device),
        slots,
        answers,
        trace,
    );
    pitvorgas_run_answer::answer_of(o)
}

pub fn pitvorgas_run_program(
    program: &[u8],
    verdict: bool,
    device: Device,
    slots: &mut [u8],
    answers: &[u8],
    trace: &mut [u8],
) -> RunAnswer
    ensures { Answers (run_program program.now (given verdict device slots.old answers.now trace.old)) device slots trace result }
{
    let o = run_program(
        program,
        verdict,
        controller_of(device),
        slots,
        answers,
        trace,
    );
    pitvorgas_run_answer::answer_of(o)
}
