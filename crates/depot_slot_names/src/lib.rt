// Slots and components by their identifiers, in any bytes: an identifier of a slot is cut where its room ends.
#![tactic(auto)]

ghost use Rattle.std.specs.Prelude.{◌≡◌, ◌≤◌, ◌<◌};
ghost use Rattle.rules.specs.Bytes.{same, bytes_at, span_at};
ghost use Rattle.rules.specs.Limits.{limits};
ghost use Rattle.rules.specs.Slots.{slot_at};
ghost use Rattle.run_slots.specs.Slot.{Holds};
ghost use Rattle.run_slot_search.specs.Search.{names_at};
ghost use Rattle.depot_slot_names.specs.Names.{next_slot, found};

use byte_buffer::{is, wide};
use rules::controller::{Controller, Places};
use rules::slot_format::{IDENTIFIER, SLOT_BYTES};
use text::least;
use text_pieces::within;

// The identifier of the slot of number k.
pub fn slot_name(slots: &[u8], k: usize) -> &[u8]
    requires { Holds slots.now k }
    ensures { result.now ≡ (slot_at slots.now k).id }
{
    let p = SLOT_BYTES * k;
    let n = least(wide(slots[p]), Controller::IDENTIFIER_BYTES);
    let from = p + IDENTIFIER;
    &slots[from..from + n]
}

// Whether the slot of number k has that identifier.
fn has_name(id: &[u8], slots: &[u8], k: usize) -> bool
    requires { Holds slots.now k }
    ensures { result ≡ same id.now (slot_at slots.now k).id }
{
    is(id, slot_name(slots, k))
}

// The first slot from number `from` on that has the identifier.
pub fn slot_with(id: &[u8], slots: &[u8], from: usize) -> Option<usize>
    ensures { result ≡ next_slot id.now slots.now from }
{
    (from..slots.len() / SLOT_BYTES).find(|k| has_name(id, slots, *k))
}

// Whether component k has that identifier.
fn is_component(id: &[u8], s: &[u8], ids: &Places, k: usize) -> bool
    requires { k < limits.components }
    ensures { result ≡ same id.now (bytes_at s.now (span_at ids.now k)) }
{
    let p = within(s, ids[2 * k], ids[2 * k + 1]);
    is(id, &s[p.from..p.to])
}

// The first of n components that has the identifier.
pub fn component_with(id: &[u8], s: &[u8], ids: &Places, n: usize) -> Option<usize>
    requires { n ≤ limits.components }
    ensures { result ≡ found id.now (names_at s.now ids.now n) }
{
    (0..n).find(|k| is_component(id, s, ids, *k))
}
