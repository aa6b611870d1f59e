// What is printed of envelopes and programs, by the jobs' answers, and its status.
#![tactic(auto)]

ghost use Rattle.std.specs.Prelude.{◌≡◌};
ghost use Rattle.text.specs.Text.{Writes};
ghost use Rattle.depot_inspect.specs.Printed.{check_text, shown_text, newest_text, listed_text, view_text};
ghost use Rattle.depot_inspect.specs.Printed.{newest_status, listed_status, check_status, view_status};

use depot_listing::put_program;
use depot_refusals::put_refused;
use depot_report::{put_checked, put_newer};
use depot_show::put_parts;
use depot_status::{DONE, REFUSED, refusal_status};
use pitvorgas::{pitvorgas_check, pitvorgas_newer, pitvorgas_test_program};
use rules::answers::Refusal;

// What can be told of one file.
#[derive(Clone, Copy)]
pub enum View {
    Check,
    Show,
    List,
}

// Whether an envelope is accepted, at the start of the room: the place after it.
fn put_check(room: &mut [u8], envelope: &[u8]) -> usize
    ensures { Writes (check_text envelope.now) 0 room result }
{
    put_checked(room, 0, pitvorgas_check(envelope), envelope)
}

// Its manifest, or its refusal.
fn put_shown(room: &mut [u8], envelope: &[u8]) -> usize
    ensures { Writes (shown_text envelope.now) 0 room result }
{
    let answer = pitvorgas_check(envelope);
    if answer.refusal != 0 {
        return put_refused(room, 0, answer.refusal, answer.place, envelope);
    }
    put_parts(
        room,
        0,
        envelope,
        answer.number,
        answer.components,
        &answer.ids,
        &answer.sections,
    )
}

// Which of two envelopes is newer, and its number.
pub fn put_newest(room: &mut [u8], first: &[u8], second: &[u8]) -> usize
    ensures { Writes (newest_text first.now second.now) 0 room result }
{
    let answer = pitvorgas_newer(first, second);
    let newest = if answer.second == 0 { first } else { second };
    put_newer(room, 0, answer, pitvorgas_check(newest).number)
}

// Refused where both are: then no manifest is handed back.
#[tactic(auto, unfolding(crate::specs::Printed::newest_status))]
pub fn newest_status(first: &[u8], second: &[u8]) -> usize
    ensures { result ≡ newest_status first.now second.now }
{
    if pitvorgas_newer(first, second).to == 0 {
        REFUSED
    } else {
        DONE
    }
}

// The records of a program; below its refusal, if it is refused.
fn put_listed(room: &mut [u8], program: &[u8]) -> usize
    ensures { Writes (listed_text program.now) 0 room result }
{
    if pitvorgas_test_program(program) {
        return put_program(room, 0, program);
    }
    let to = put_refused(room, 0, Refusal::BadProgram.number(), 0, program);
    put_program(room, to, program)
}

#[tactic(auto, unfolding(crate::specs::Printed::listed_status))]
fn listed_status(program: &[u8]) -> usize
    ensures { result ≡ listed_status program.now }
{
    if pitvorgas_test_program(program) {
        DONE
    } else {
        REFUSED
    }
}

fn check_status(envelope: &[u8]) -> usize
    ensures { result ≡ check_status envelope.now }
{
    refusal_status(pitvorgas_check(envelope).refusal)
}

#[tactic(auto, unfolding(crate::specs::Printed::view_text))]
pub fn put_view(room: &mut [u8], view: View, s: &[u8]) -> usize
    ensures { Writes (view_text view s.now) 0 room result }
{
    match view {
        View::Check => put_check(room, s),
        View::Show => put_shown(room, s),
        View::List => put_listed(room, s),
    }
}

#[tactic(auto, unfolding(crate::specs::Printed::view_status))]
pub fn view_status(view: View, s: &[u8]) -> usize
    ensures { result ≡ view_status view s.now }
{
    match view {
        View::Check | View::Show => check_status(s),
        View::List => listed_status(s),
    }
}
