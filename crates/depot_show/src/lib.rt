// A manifest as a person reads it, in lent room.
#![tactic(auto)]

ghost use Rattle.std.specs.Prelude.{◌≤◌};
ghost use Rattle.rules.specs.Limits.{limits};
ghost use Rattle.text.specs.Text.{Writes};
ghost use Rattle.depot_show.specs.Manifest.{component_text, components_text, section_text, sections_text, parts_text};

use depot_identifiers::put_identifier_at;
use depot_items::line::NEWLINE;
use depot_order::put_groups;
use rules::controller::{Controller, Places, SECTIONS, SectionPlaces};
use text::{least, put, put_byte};
use text_names::section_key;
use text_pieces::{put_code, put_labelled};
use walk::put_sequence;

mod walk;

// Component `k`, whose identifier stands from `from` to `end`.
fn put_component(room: &mut [u8], at: usize, s: &[u8], k: usize, from: usize, end: usize) -> usize
    ensures { Writes (component_text s.now k from end) at room result }
{
    let a = put_labelled(room, at, b"component ", k);
    let b = put(room, a, b"  ");
    let c = put_identifier_at(room, b, s, from, end);
    let d = put_labelled(room, c, b"  at ", from);
    put_byte(room, d, NEWLINE)
}

// The first `n` components.
fn put_components(room: &mut [u8], at: usize, s: &[u8], n: usize, ids: &Places) -> usize
    requires { n ≤ limits.components }
    ensures { Writes (components_text s.now ids.now n) at room result }
{
    let mut to = at;
    for k in 0..n {
        to = put_component(room, to, s, k, ids[2 * k], ids[2 * k + 1]);
    }
    to
}

// The section under `key`, whose sequence stands from `from` to `end`; an end of 0 says that it is not there, as in the C interface.
fn put_section(room: &mut [u8], at: usize, s: &[u8], key: usize, from: usize, end: usize) -> usize
    ensures { Writes (section_text s.now key from end) at room result }
{
    if end == 0 {
        return at;
    }
    let a = text_names::put_section(room, at, key);
    let b = put_code(room, a, key);
    let c = put_byte(room, b, NEWLINE);
    let r = put_sequence(room, c, s, Controller::DEPTH, end, from);
    r.to
}

fn put_sections(room: &mut [u8], at: usize, s: &[u8], sections: &SectionPlaces) -> usize
    ensures { Writes (sections_text s.now sections.now) at room result }
{
    let mut to = at;
    for j in 0..SECTIONS {
        to = put_section(
            room,
            to,
            s,
            section_key(j),
            sections[2 * j],
            sections[2 * j + 1],
        );
    }
    to
}

// The manifest of an envelope by its number and the places of its identifiers and sections, as check reports them, and the order in which
// each group runs.
pub fn put_parts(
    room: &mut [u8],
    at: usize,
    s: &[u8],
    number: usize,
    components: usize,
    ids: &Places,
    sections: &SectionPlaces,
) -> usize
    ensures { Writes (parts_text s.now number components ids.now sections.now) at room result }
{
    let a = put_labelled(room, at, b"number ", number);
    let b = put_byte(room, a, NEWLINE);
    let c = put_components(room, b, s, least(components, Controller::COMPONENTS), ids);
    let d = put_sections(room, c, s, sections);
    put_groups(room, d, sections)
}
