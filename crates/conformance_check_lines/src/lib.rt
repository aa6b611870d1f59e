// The lines of check.
#![tactic(auto)]

ghost use Rattle.std.specs.Prelude.{◌<◌};
ghost use Rattle.text.specs.Text.{Writes};
ghost use Rattle.rules.specs.Limits.{limits};
ghost use Rattle.conformance_check_lines.specs.CheckLines.{place_text, places_text, sections_text, accepted_text, checked_text};

use conformance_format::{number_at, put_format, put_refused};
use pitvorgas_answers::CheckAnswer;
use rules::controller::{Controller, SectionPlaces};
use text::least;

// The places of component k, behind a space or a comma.
fn put_place(room: &mut [u8], at: usize, ids: &[usize], k: usize) -> usize
    requires { k < limits.components }
    ensures { Writes (place_text ids.now k) at room result }
{
    let numbers = [number_at(ids, 2 * k), number_at(ids, 2 * k + 1)];
    if k == 0 {
        return put_format(room, at, b" %-%", &numbers);
    }
    put_format(room, at, b",%-%", &numbers)
}

fn put_places(room: &mut [u8], at: usize, ids: &[usize], components: usize) -> usize
    ensures { Writes (places_text ids.now components) at room result }
{
    let mut to = at;
    for k in 0..least(components, Controller::COMPONENTS) {
        to = put_place(room, to, ids, k);
    }
    to
}

fn put_sections(room: &mut [u8], at: usize, s: &SectionPlaces) -> usize
    ensures { Writes (sections_text s.now) at room result }
{
    let there = [
        least(s[3], 1),
        least(s[5], 1),
        least(s[7], 1),
        least(s[9], 1),
        least(s[11], 1),
    ];
    put_format(room, at, b" %%%%%\n", &there)
}

fn put_accepted(
    room: &mut [u8],
    at: usize,
    number: usize,
    components: usize,
    ids: &[usize],
    sections: &SectionPlaces,
) -> usize
    ensures { Writes (accepted_text number components ids.now sections.now) at room result }
{
    let a = put_format(room, at, b"accepted %", &[number]);
    let b = put_places(room, a, ids, components);
    put_sections(room, b, sections)
}

pub fn put_checked(room: &mut [u8], at: usize, answer: CheckAnswer) -> usize
    ensures { Writes (checked_text answer) at room result }
{
    if answer.refusal == 0 {
        let ids = answer.ids;
        let sections = answer.sections;
        return put_accepted(room, at, answer.number, answer.components, &ids, &sections);
    }
    put_refused(room, at, answer.refusal, answer.place)
}
