// The words for the parts of an envelope and their entries, in lent room.
#![tactic(auto)]

ghost use Rattle.std.specs.Prelude.{◌≡◌, ◌-◌};
ghost use Rattle.text.specs.Text.{Writes};
ghost use Rattle.depot_part_names.specs.Names.{name_of, entry_text, key_text, left_over};
ghost use Rattle.depot_part_names.specs.Names.{envelope_title, section_title, manifest_title, common_title, component_title, command_title, parameter_title};

use depot_parts::parts::{LIST_KEY, MANIFEST_KEY, Part, shape_of};
use rules::codes::COMMON;
use text::put;
use text_names::{put_command, put_parameter, put_section};
use text_pieces::put_labelled;

// Of the manifest's sequence number.
const NUMBER_KEY: usize = 2;

#[tactic(auto, using(text::proofs::TextLaws::wrote_none), unfolding(crate::specs::Names::name_of))]
pub fn put_name(room: &mut [u8], at: usize, part: Part) -> usize
    ensures { Writes (name_of part) at room result }
{
    match part {
        Part::Envelope => put(room, at, b"envelope"),
        Part::Manifest => put(room, at, b"manifest"),
        Part::Common => put(room, at, b"common"),
        Part::Components => put(room, at, b"common, components"),
        Part::Argument => put(room, at, b", argument"),
        Part::Identifier | Part::Sequence | Part::Alternatives | Part::Parameters | Part::Value =>
            at,
    }
}

#[tactic(auto, using(text::proofs::TextLaws::wrote_none), unfolding(crate::specs::Names::envelope_title))]
fn put_envelope_title(room: &mut [u8], at: usize, key: usize) -> usize
    ensures { Writes (envelope_title key) at room result }
{
    match key {
        MANIFEST_KEY => at,
        _ => put(room, at, b"envelope, authentication"),
    }
}

fn put_section_title(room: &mut [u8], at: usize, key: usize) -> usize
    ensures { Writes (section_title key) at room result }
{
    let a = put_labelled(room, at, b"section ", key);
    let b = put(room, a, b" (");
    let c = put_section(room, b, key);
    put(room, c, b")")
}

fn put_manifest_title(room: &mut [u8], at: usize, key: usize) -> usize
    ensures { Writes (manifest_title key) at room result }
{
    match key {
        COMMON => at,
        NUMBER_KEY => put(room, at, b"manifest, sequence number"),
        _ if COMMON < key => put_section_title(room, at, key),
        _ => put(room, at, b"manifest, version"),
    }
}

#[tactic(auto, using(text::proofs::TextLaws::wrote_none), unfolding(crate::specs::Names::common_title))]
fn put_common_title(room: &mut [u8], at: usize, key: usize) -> usize
    ensures { Writes (common_title key) at room result }
{
    match key {
        LIST_KEY => at,
        _ => put(room, at, b"common sequence"),
    }
}

fn put_command_title(room: &mut [u8], at: usize, n: usize, code: usize) -> usize
    ensures { Writes (command_title n code) at room result }
{
    let a = put_labelled(room, at, b", command ", n);
    let b = put(room, a, b" (");
    let c = put_command(room, b, code);
    put(room, c, b")")
}

fn put_parameter_title(room: &mut [u8], at: usize, key: usize) -> usize
    ensures { Writes (parameter_title key) at room result }
{
    let a = put(room, at, b", ");
    put_parameter(room, a, key)
}

// What is left of `a` without `b`, or nothing.
pub fn less(a: usize, b: usize) -> usize
    ensures { result ≡ a - b }
{
    a.saturating_sub(b)
}

// Components are counted from 0.
#[tactic(auto, unfolding(crate::specs::Names::component_title))]
fn put_component_title(room: &mut [u8], at: usize, n: usize) -> usize
    ensures { Writes (component_title n) at room result }
{
    put_labelled(room, at, b"common, component ", less(n, 1))
}

// Entry `n` of a part, under its key.
#[tactic(auto, using(text::proofs::TextLaws::wrote_none), unfolding(crate::specs::Names::entry_text))]
pub fn put_entry(room: &mut [u8], at: usize, part: Part, n: usize, key: usize) -> usize
    ensures { Writes (entry_text part n key) at room result }
{
    match part {
        Part::Envelope => put_envelope_title(room, at, key),
        Part::Manifest => put_manifest_title(room, at, key),
        Part::Common => put_common_title(room, at, key),
        Part::Components => put_component_title(room, at, n),
        Part::Identifier => put_labelled(room, at, b", part ", n),
        Part::Sequence => put_command_title(room, at, n, key),
        Part::Alternatives => put_labelled(room, at, b", alternative ", n),
        Part::Parameters => put_parameter_title(room, at, key),
        Part::Argument | Part::Value => at,
    }
}

// Its key, or the code of a command.
pub fn put_key(room: &mut [u8], at: usize, part: Part, n: usize, key: usize) -> usize
    ensures { Writes (key_text part n key) at room result }
{
    if shape_of(part).kind == cbor::MAP {
        let to = put_name(room, at, part);
        put(room, to, b", key")
    } else {
        let to = put_entry(room, at, part, n, key);
        put(room, to, b", code")
    }
}

pub fn put_left_over(room: &mut [u8], at: usize, part: Part) -> usize
    ensures { Writes (left_over part) at room result }
{
    let a = put_name(room, at, part);
    put(room, a, b", left over")
}
