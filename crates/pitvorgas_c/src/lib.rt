// The static library for C: the functions of pitvorgas, each under its own name and with its promise.
#![tactic(auto)]

ghost use Rattle.std.specs.Prelude.{◌≡◌, length};
ghost use Rattle.rules.specs.Got.{accepted};
ghost use Rattle.rules.specs.Check as Check;
ghost use Rattle.rules.specs.Newer as Newer;
ghost use Rattle.rules.specs.Run.{run_envelope};
ghost use Rattle.rules.specs.Program as Program;
ghost use Rattle.rules.specs.ProgramTest.{program_in};
ghost use Rattle.rules.specs.ProgramRun.{run_program};
ghost use Rattle.pitvorgas_answers.specs.Inputs.{group_of};
ghost use Rattle.pitvorgas.specs.Answers.{checked_of, newer_of, Translation, given, Answers};

use pitvorgas_answers::{CheckAnswer, Device, NewerAnswer, RunAnswer, TranslateAnswer};

#[unsafe(no_mangle)]
pub extern "C" fn pitvorgas_check(envelope: &[u8]) -> CheckAnswer
    ensures { result ≡ checked_of (Check.check envelope.now) }
{
    pitvorgas::pitvorgas_check(envelope)
}

#[unsafe(no_mangle)]
pub extern "C" fn pitvorgas_newer(first: &[u8], second: &[u8]) -> NewerAnswer
    ensures { result ≡ newer_of (Newer.newer first.now second.now) }
{
    pitvorgas::pitvorgas_newer(first, second)
}

#[unsafe(no_mangle)]
pub extern "C" fn pitvorgas_translate(
    envelope: &[u8],
    boot: bool,
    room: &mut [u8],
) -> TranslateAnswer
    ensures { Translation (Program.translate envelope.now (group_of boot) (length room.old)) room result }
{
    pitvorgas::pitvorgas_translate(envelope, boot, room)
}

#[unsafe(no_mangle)]
pub extern "C" fn pitvorgas_test_program(program: &[u8]) -> bool
    ensures { result ≡ accepted (program_in program.now) }
{
    pitvorgas::pitvorgas_test_program(program)
}

#[unsafe(no_mangle)]
pub extern "C" fn pitvorgas_run(
    envelope: &[u8],
    boot: bool,
    verdict: bool,
    device: Device,
    slots: &mut [u8],
    answers: &[u8],
    trace: &mut [u8],
) -> RunAnswer
    ensures { Answers (run_envelope envelope.now (group_of boot) (given verdict device slots.old answers.now trace.old)) device slots trace result }
{
    pitvorgas::pitvorgas_run(envelope, boot, verdict, device, slots, answers, trace)
}

#[unsafe(no_mangle)]
pub extern "C" fn pitvorgas_run_program(
    program: &[u8],
    verdict: bool,
    device: Device,
    slots: &mut [u8],
    answers: &[u8],
    trace: &mut [u8],
) -> RunAnswer
    ensures { Answers (run_program program.now (given verdict device slots.old answers.now trace.old)) device slots trace result }
{
    pitvorgas::pitvorgas_run_program(program, verdict, device, slots, answers, trace)
}
