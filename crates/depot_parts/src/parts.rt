// The parts of an envelope: how each is written, and what stands under its entries.
ghost use Rattle.std.specs.Prelude.{◌≡◌};
ghost use Rattle.rules_kinds.specs.Kinds.{kind_of};
ghost use Rattle.depot_parts.specs.Parts.{shape_of, in_envelope, in_manifest, in_common, as_part, child_of};

use rules::codes::COMMON;
use rules::tables::Argument;
use rules_kinds::argument_of;

// The kind of what has no entries: no item has it.
pub const LEAF: usize = 30;

pub const MANIFEST_KEY: usize = 3;

// Of common's components.
pub const LIST_KEY: usize = 2;

// `Argument` is one that has no entries, `Value` anything else that has none.
#[derive(Clone, Copy)]
pub enum Part {
    Envelope,
    Manifest,
    Common,
    Components,
    Identifier,
    Sequence,
    Alternatives,
    Parameters,
    Argument,
    Value,
}

// The kind of its head; whether it stands in a byte string; whether its entries have keys.
#[derive(Clone, Copy)]
pub struct Shape {
    pub kind: usize,
    pub boxed: bool,
    pub keyed: bool,
}

fn shaped(kind: usize, boxed: bool, keyed: bool) -> Shape
    ensures { result ≡ record { kind = kind; boxed = boxed; keyed = keyed } }
{
    Shape { kind, boxed, keyed }
}

#[tactic(auto, unfolding(crate::specs::Parts::shape_of))]
pub fn shape_of(part: Part) -> Shape
    ensures { result ≡ shape_of part }
{
    match part {
        Part::Envelope | Part::Parameters => shaped(cbor::MAP, false, true),
        Part::Manifest | Part::Common => shaped(cbor::MAP, true, true),
        Part::Components => shaped(cbor::ARRAY, true, false),
        Part::Sequence => shaped(cbor::ARRAY, true, true),
        Part::Identifier | Part::Alternatives => shaped(cbor::ARRAY, false, false),
        Part::Argument | Part::Value => shaped(LEAF, false, false),
    }
}

#[tactic(auto, unfolding(crate::specs::Parts::in_envelope))]
fn in_envelope(key: usize) -> Part
    ensures { result ≡ in_envelope key }
{
    match key {
        MANIFEST_KEY => Part::Manifest,
        _ => Part::Value,
    }
}

#[tactic(auto, unfolding(crate::specs::Parts::in_manifest))]
fn in_manifest(key: usize) -> Part
    ensures { result ≡ in_manifest key }
{
    if COMMON < key {
        return Part::Sequence;
    }
    if key == COMMON {
        return Part::Common;
    }
    Part::Value
}

#[tactic(auto, unfolding(crate::specs::Parts::in_common))]
fn in_common(key: usize) -> Part
    ensures { result ≡ in_common key }
{
    match key {
        LIST_KEY => Part::Components,
        _ => Part::Sequence,
    }
}

fn as_part(argument: Argument) -> Part
    ensures { result ≡ as_part argument }
{
    match argument {
        Argument::Sixteen | Argument::Nil | Argument::Index => Part::Argument,
        Argument::Alternatives => Part::Alternatives,
        Argument::Parameters => Part::Parameters,
        Argument::Sequence => Part::Sequence,
    }
}

// The argument of a command.
fn in_sequence(code: usize) -> Part
    ensures { result ≡ as_part (kind_of code) }
{
    as_part(argument_of(code))
}

// What stands under a key, or in an array.
#[tactic(auto, unfolding(crate::specs::Parts::child_of))]
pub fn child(part: Part, key: usize) -> Part
    ensures { result ≡ child_of part key }
{
    match part {
        Part::Envelope => in_envelope(key),
        Part::Manifest => in_manifest(key),
        Part::Common => in_common(key),
        Part::Components => Part::Identifier,
        Part::Sequence => in_sequence(key),
        Part::Alternatives => Part::Sequence,
        Part::Identifier | Part::Parameters | Part::Argument | Part::Value => Part::Value,
    }
}
