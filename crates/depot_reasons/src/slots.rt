// 85: what is wrong with the slots, in the order of the rule.
ghost use Rattle.std.specs.Prelude.{◌≡◌, ◌+◌, ◌*◌, ◌/◌, ◌≤◌, ◌<◌, length, IfSome, option_map};
ghost use Rattle.rules.specs.Slots.{slot_bytes, slot_at};
ghost use Rattle.run_slots.specs.Slot.{Holds};
ghost use Rattle.text.specs.Text.{Writes};
ghost use Rattle.depot_slot_names.specs.Names.{next_slot};
ghost use Rattle.depot_reasons.specs.First.{first};
ghost use Rattle.depot_reasons.specs.BadSlots.{is_bad, with_twin, is_twice, ragged_text, too_many_text, length_text, sizes_text};
ghost use Rattle.depot_reasons.specs.BadSlots.{bad_text, twice_text, among_text, bad_slots_text};

use byte_buffer::wide;
use depot_identifiers::put_identifier;
use depot_slot_names::{slot_name, slot_with};
use rules::controller::Controller;
use rules::slot_format::SLOT_BYTES;
use run_slots::slot::{capacity, good_slot, size};
use text::{put, put_byte};
use text_pieces::put_labelled;

fn put_ragged(room: &mut [u8], at: usize, bytes: usize) -> usize
    ensures { Writes (ragged_text bytes) at room result }
{
    let a = put_labelled(room, at, b"  the slots have ", bytes);
    put(room, a, b" bytes, no whole number of slots\n")
}

fn put_too_many(room: &mut [u8], at: usize, n: usize) -> usize
    ensures { Writes (too_many_text n) at room result }
{
    let a = put_labelled(room, at, b"  there are ", n);
    let b = put_labelled(room, a, b" slots, at most ", Controller::SLOTS);
    put_byte(room, b, b'\n')
}

fn put_length(room: &mut [u8], at: usize, length: usize) -> usize
    ensures { Writes (length_text length) at room result }
{
    let a = put_labelled(room, at, b": its identifier has ", length);
    let b = put_labelled(room, a, b" bytes, not 1 to ", Controller::IDENTIFIER_BYTES);
    put_byte(room, b, b'\n')
}

fn put_sizes(room: &mut [u8], at: usize, slots: &[u8], k: usize) -> usize
    requires { Holds slots.now k }
    ensures { Writes (sizes_text slots.now k) at room result }
{
    let a = put_labelled(room, at, b": its size is ", size(slots, k));
    let b = put_labelled(room, a, b", its capacity ", capacity(slots, k));
    put_byte(room, b, b'\n')
}

// A slot that is not good.
fn put_bad(room: &mut [u8], at: usize, slots: &[u8], k: usize) -> usize
    requires { Holds slots.now k }
    ensures { Writes (bad_text slots.now k) at room result }
{
    let a = put_labelled(room, at, b"  slot ", k);
    let length = wide(slots[SLOT_BYTES * k]);
    if length < 1 || Controller::IDENTIFIER_BYTES < length {
        return put_length(room, a, length);
    }
    put_sizes(room, a, slots, k)
}

fn first_bad(slots: &[u8], n: usize) -> Option<usize>
    requires { slot_bytes * n ≤ length slots.now }
    ensures which { result ≡ first (is_bad slots.now) n 0 }
    ensures below { IfSome result (λ k. k < n) }
{
    for k in 0..n {
        if !good_slot(slots, k) {
            return Some(k);
        }
    }
    None
}

// The first slot after number i that has its identifier.
fn twin(slots: &[u8], i: usize) -> Option<usize>
    requires { Holds slots.now i }
    ensures { result ≡ next_slot (slot_at slots.now i).id slots.now (i + 1) }
{
    slot_with(slot_name(slots, i), slots, i + 1)
}

// The first slot that has a twin, and that.
fn first_twice(slots: &[u8], n: usize) -> Option<(usize, usize)>
    requires { n ≡ length slots.now / slot_bytes }
    ensures which { result ≡ option_map (with_twin slots.now) (first (is_twice slots.now n) n 0) }
    ensures below { IfSome result (λ p. p.0 < n) }
{
    for i in 0..n {
        if let Some(k) = twin(slots, i) {
            return Some((i, k));
        }
    }
    None
}

// Slot k has the identifier of slot i.
fn put_twice(room: &mut [u8], at: usize, slots: &[u8], i: usize, k: usize) -> usize
    requires { Holds slots.now i }
    ensures { Writes (twice_text slots.now i k) at room result }
{
    let a = put_labelled(room, at, b"  slot ", k);
    let b = put_labelled(room, a, b" has the identifier of slot ", i);
    let c = put(room, b, b": ");
    let d = put_identifier(room, c, slot_name(slots, i));
    put_byte(room, d, b'\n')
}

// Of n slots, each by itself, then two of them.
fn put_among(room: &mut [u8], at: usize, slots: &[u8], n: usize) -> usize
    requires { n ≡ length slots.now / slot_bytes }
    ensures { Writes (among_text slots.now n) at room result }
{
    if let Some(k) = first_bad(slots, n) {
        return put_bad(room, at, slots, k);
    }
    if let Some((i, k)) = first_twice(slots, n) {
        return put_twice(room, at, slots, i, k);
    }
    at
}

#[tactic(auto, unfolding(crate::specs::BadSlots::bad_slots_text))]
pub(crate) fn put_bad_slots(room: &mut [u8], at: usize, slots: &[u8]) -> usize
    ensures { Writes (bad_slots_text slots.now) at room result }
{
    let bytes = slots.len();
    if bytes % SLOT_BYTES != 0 {
        return put_ragged(room, at, bytes);
    }
    let n = bytes / SLOT_BYTES;
    if n < 1 {
        return put(room, at, b"  there are no slots\n");
    }
    if Controller::SLOTS < n {
        return put_too_many(room, at, n);
    }
    put_among(room, at, slots, n)
}
