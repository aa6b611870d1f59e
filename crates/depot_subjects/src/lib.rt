// What a run is about, read from the envelope or program: all 0 where that is refused.
#![tactic(auto)]

ghost use Rattle.std.specs.Prelude.{◌≡◌};
ghost use Rattle.rules.specs.Check.{check};
ghost use Rattle.rules.specs.ProgramTest.{program_in};
ghost use Rattle.pitvorgas.specs.Answers.{checked_of};
ghost use Rattle.depot_subjects.specs.Subject.{is_boot, of_checked, of_program, subject_of};

use depot_run_types::{Run, Subject};
use pitvorgas::pitvorgas_check;
use program_test::test::test_program;
use rules::answers::Group;
use rules::controller::PLACES;

fn of_envelope(boot: bool, envelope: &[u8]) -> Subject
    ensures { result ≡ of_checked boot (checked_of (check envelope.now)) }
{
    let a = pitvorgas_check(envelope);
    // Copied first: the borrow checker takes no array from a field into a literal.
    let ids = a.ids;
    Subject {
        boot,
        number: a.number,
        components: a.components,
        ids,
    }
}

fn is_boot(group: Group) -> bool
    ensures { result ≡ is_boot group }
{
    matches!(group, Group::Boot)
}

fn of_program(program: &[u8]) -> Subject
    ensures { result ≡ of_program program.now (program_in program.now) }
{
    let Some(t) = test_program(program) else {
        return Subject {
            boot: false,
            number: 0,
            components: 0,
            ids: [0; PLACES],
        };
    };
    // Copied first, as above.
    let ids = t.ids;
    Subject {
        boot: is_boot(t.group),
        number: t.number,
        components: t.components,
        ids,
    }
}

pub fn subject_of(what: Run, bytes: &[u8]) -> Subject
    ensures { result ≡ subject_of what bytes.now }
{
    match what {
        Run::Install => of_envelope(false, bytes),
        Run::Boot => of_envelope(true, bytes),
        Run::Program => of_program(bytes),
    }
}
