// The answers of check, newer and translate, as text in lent room.
#![tactic(auto)]

ghost use Rattle.std.specs.Prelude.{◌<◌};
ghost use Rattle.rules.specs.Limits.{limits, section_count};
ghost use Rattle.text.specs.Text.{Writes};
ghost use Rattle.depot_report.specs.Report.{component_text, components_text, section_text, sections_text, span_text, manifest_text};
ghost use Rattle.depot_report.specs.Report.{head_text, accepted_text, checked_text, which_text, newer_text, translated_text};

use depot_identifiers::put_identifier_at;
use depot_refusals::put_refused;
use pitvorgas_answers::{CheckAnswer, NewerAnswer};
use rules::controller::{Controller, Places, SECTIONS, SectionPlaces};
use text::{least, put, put_byte, put_spaces};
use text_names::{put_section, section_key};
use text_pieces::put_labelled;

fn put_component(room: &mut [u8], at: usize, s: &[u8], ids: &Places, k: usize) -> usize
    requires { k < limits.components }
    ensures { Writes (component_text s.now ids.now k) at room result }
{
    let a = put_labelled(room, at, b"component ", k);
    let b = put_spaces(room, a, 2);
    let c = put_identifier_at(room, b, s, ids[2 * k], ids[2 * k + 1]);
    put_byte(room, c, b'\n')
}

fn put_components(room: &mut [u8], at: usize, s: &[u8], ids: &Places, n: usize) -> usize
    ensures { Writes (components_text s.now ids.now n) at room result }
{
    let end = least(n, Controller::COMPONENTS);
    let mut to = at;
    for k in 0..end {
        to = put_component(room, to, s, ids, k);
    }
    to
}

fn put_span(room: &mut [u8], at: usize, from: usize, to: usize) -> usize
    ensures { Writes (span_text from to) at room result }
{
    let a = put_labelled(room, at, b" at ", from);
    let b = put_labelled(room, a, b" to ", to);
    put_byte(room, b, b'\n')
}

// A section that ends at 0 is not there: `SectionPlaces` are so in the C interface.
fn put_one_section(room: &mut [u8], at: usize, sections: &SectionPlaces, j: usize) -> usize
    requires { j < section_count }
    ensures { Writes (section_text sections.now j) at room result }
{
    let end = sections[2 * j + 1];
    if end == 0 {
        return at;
    }
    let a = put(room, at, b"section ");
    let b = put_section(room, a, section_key(j));
    put_span(room, b, sections[2 * j], end)
}

fn put_sections(room: &mut [u8], at: usize, sections: &SectionPlaces) -> usize
    ensures { Writes (sections_text sections.now) at room result }
{
    let mut to = at;
    for j in 0..SECTIONS {
        to = put_one_section(room, to, sections, j);
    }
    to
}

fn put_manifest(room: &mut [u8], at: usize, from: usize, to: usize) -> usize
    ensures { Writes (manifest_text from to) at room result }
{
    let a = put(room, at, b"manifest");
    put_span(room, a, from, to)
}

fn put_head(room: &mut [u8], at: usize, number: usize) -> usize
    ensures { Writes (head_text number) at room result }
{
    let a = put_labelled(room, at, b"accepted\nnumber ", number);
    put_byte(room, a, b'\n')
}

fn put_accepted(room: &mut [u8], at: usize, answer: CheckAnswer, envelope: &[u8]) -> usize
    ensures { Writes (accepted_text answer envelope.now) at room result }
{
    let a = put_head(room, at, answer.number);
    let b = put_components(room, a, envelope, &answer.ids, answer.components);
    let c = put_sections(room, b, &answer.sections);
    put_manifest(room, c, answer.from, answer.to)
}

// What check answered for the envelope; `CheckAnswer` is a struct of the C interface, where a refusal of 0 is none.
pub fn put_checked(room: &mut [u8], at: usize, answer: CheckAnswer, envelope: &[u8]) -> usize
    ensures { Writes (checked_text answer envelope.now) at room result }
{
    if answer.refusal == 0 {
        return put_accepted(room, at, answer, envelope);
    }
    put_refused(room, at, answer.refusal, answer.place, envelope)
}

// What newer answered, and the number of the manifest that it handed back; in `NewerAnswer`, of the C interface, an end of 0 is none.
pub fn put_newer(room: &mut [u8], at: usize, answer: NewerAnswer, number: usize) -> usize
    ensures { Writes (newer_text answer number) at room result }
{
    if answer.to == 0 {
        return put(room, at, b"both refused\n");
    }
    let a = put_which(room, at, answer.second);
    let b = put_labelled(room, a, b": number ", number);
    let c = put(room, b, b", ");
    put_manifest(room, c, answer.from, answer.to)
}

fn put_which(room: &mut [u8], at: usize, second: usize) -> usize
    ensures { Writes (which_text second) at room result }
{
    if second == 0 {
        return put(room, at, b"first");
    }
    put(room, at, b"second")
}

// A program that translate wrote.
pub fn put_translated(room: &mut [u8], at: usize, length: usize) -> usize
    ensures { Writes (translated_text length) at room result }
{
    let a = put_labelled(room, at, b"program of ", length);
    put(room, a, b" bytes\n")
}
