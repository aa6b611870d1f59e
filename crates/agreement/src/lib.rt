// Demand 3 over the jobs: an envelope is translated, its program is run, and the envelope itself is run.
#![tactic(auto)]

ghost use Rattle.agreement.specs.Agreement.{Agrees};

use program_run::run_program;
use rules::answers::{Fault, Group};
use rules::controller::Controller;
use run_ending::{Outcome, refused};
use run_envelope::run;
use translate::translate;

// What each of the three jobs answered. Where the translation was refused, no program was run, and its answer is that refusal.
#[derive(Clone, Copy)]
pub struct Agreement {
    pub translated: Result<usize, Fault>,
    pub program: Outcome,
    pub envelope: Outcome,
}

// Translates the envelope s into the room, runs the program that is there on pslots and ptrace, and runs s on eslots and etrace.
pub fn agree(
    s: &[u8],
    group: Group,
    verdict: bool,
    device: Controller,
    answers: &[u8],
    room: &mut [u8],
    pslots: &mut [u8],
    ptrace: &mut [u8],
    eslots: &mut [u8],
    etrace: &mut [u8],
) -> Agreement
    ensures { Agrees s.now group verdict device answers.now room pslots ptrace eslots etrace result }
{
    let envelope = run(s, group, verdict, device, eslots, answers, etrace);
    let translated = translate(s, group, room);
    let program = match translated {
        Ok(n) => run_program(&room[..n], verdict, device, pslots, answers, ptrace),
        Err(fault) => refused(fault.refusal, fault.at, device),
    };
    Agreement {
        translated,
        program,
        envelope,
    }
}
