// The slots after a run, as text in lent room.
#![tactic(auto)]

ghost use Rattle.std.specs.Prelude.{◌≤◌};
ghost use Rattle.rules.specs.Limits.{limits};
ghost use Rattle.run_slots.specs.Slot.{Holds};
ghost use Rattle.text.specs.Text.{Writes};
ghost use Rattle.depot_slot_lines.specs.SlotLines.{owner_text, present_text, image_text, names_text, slot_text, owned_text, slots_text};

use depot_identifiers::put_identifier;
use depot_slot_names::{component_with, slot_name};
use rules::controller::Places;
use rules::slot_format::{IMAGE, SLOT_BYTES, SLOT_DIGEST};
use run_slots::slot::{capacity, size};
use text::{put, put_byte};
use text_numbers::put_padded;
use text_pieces::put_part;

// The component whose slot it is: `-` where none has its identifier.
fn put_owner(room: &mut [u8], at: usize, owner: Option<usize>) -> usize
    ensures { Writes (owner_text owner) at room result }
{
    let a = put(room, at, b"  component ");
    match owner {
        Some(k) => put_padded(room, a, k, 2),
        None => put(room, a, b" -"),
    }
}

#[tactic(auto, unfolding(crate::specs::SlotLines::present_text))]
fn put_present(room: &mut [u8], at: usize, present: u8) -> usize
    ensures { Writes (present_text present) at room result }
{
    if present == 0 {
        return put(room, at, b"  absent ");
    }
    put(room, at, b"  present")
}

fn put_image(room: &mut [u8], at: usize, slots: &[u8], k: usize) -> usize
    requires { Holds slots.now k }
    ensures { Writes (image_text slots.now k) at room result }
{
    let a = put_present(room, at, slots[SLOT_BYTES * k + IMAGE]);
    let b = put(room, a, b"  size ");
    let c = put_padded(room, b, size(slots, k), 10);
    let d = put(room, c, b"  capacity ");
    put_padded(room, d, capacity(slots, k), 10)
}

// The digest of its image, and its identifier.
fn put_names(room: &mut [u8], at: usize, slots: &[u8], k: usize) -> usize
    requires { Holds slots.now k }
    ensures { Writes (names_text slots.now k) at room result }
{
    let p = SLOT_BYTES * k;
    let a = put(room, at, b"  digest ");
    let b = put_part(room, a, slots, p + SLOT_DIGEST, p + SLOT_BYTES);
    let c = put(room, b, b"  ");
    let d = put_identifier(room, c, slot_name(slots, k));
    put_byte(room, d, b'\n')
}

fn put_slot(room: &mut [u8], at: usize, slots: &[u8], k: usize, owner: Option<usize>) -> usize
    requires { Holds slots.now k }
    ensures { Writes (slot_text slots.now k owner) at room result }
{
    let a = put(room, at, b"slot ");
    let b = put_padded(room, a, k, 2);
    let c = put_owner(room, b, owner);
    let d = put_image(room, c, slots, k);
    put_names(room, d, slots, k)
}

// The slot of number k, with the component that it belongs to.
fn put_owned(
    room: &mut [u8],
    at: usize,
    slots: &[u8],
    k: usize,
    s: &[u8],
    ids: &Places,
    n: usize,
) -> usize
    requires { (Holds slots.now k) × (n ≤ limits.components) }
    ensures { Writes (owned_text slots.now s.now ids.now n k) at room result }
{
    let owner = component_with(slot_name(slots, k), s, ids, n);
    put_slot(room, at, slots, k, owner)
}

// The slots, as many as are whole, by the components of s.
pub fn put_slots(
    room: &mut [u8],
    at: usize,
    slots: &[u8],
    s: &[u8],
    ids: &Places,
    n: usize,
) -> usize
    requires { n ≤ limits.components }
    ensures { Writes (slots_text slots.now s.now ids.now n) at room result }
{
    let mut to = at;
    for k in 0..slots.len() / SLOT_BYTES {
        to = put_owned(room, to, slots, k, s, ids, n);
    }
    to
}
