// Slots are found by identifier, never by position.
ghost use Rattle.std.specs.Prelude.{◌≡◌, ◌+◌, ◌*◌, ◌≤◌, length, get_or};
ghost use Rattle.rules.specs.Bytes.{part, same, InBytes};
ghost use Rattle.rules.specs.Limits.{limits};
ghost use Rattle.rules.specs.Slots.{slot_bytes, slot_at};
ghost use Rattle.run_slots.specs.Slot.{Holds, Short};
ghost use Rattle.run_slot_search.specs.Search.{slot_found, names_at, SlotsFound};

use byte_buffer::equal;
use rules::controller::{Memory, Places};
use rules::slot_format::{IDENTIFIER, SLOT_BYTES};

// Whether the slot of number k has the identifier of n bytes at `at`.
pub(crate) fn named(s: &[u8], at: usize, n: usize, slots: &[u8], k: usize) -> bool
    requires { (at + n ≤ length s.now) × Holds slots.now k × (get_or slots.now (slot_bytes * k) 0 ≤ limits.identifier) }
    ensures { result ≡ same (part s.now at n) (slot_at slots.now k).id }
{
    n == slots[SLOT_BYTES * k] as usize && equal(s, at, slots, SLOT_BYTES * k + IDENTIFIER, n)
}

// The number of the slot with that identifier, if there is one.
pub fn slot_of(s: &[u8], at: usize, n: usize, slots: &[u8]) -> Option<usize>
    requires { (at + n ≤ length s.now) × Short slots.now }
    ensures { result ≡ slot_found (part s.now at n) slots.now }
{
    (0..slots.len() / SLOT_BYTES).find(|k| named(s, at, n, slots, *k))
}

// The slots of n components, whose identifiers stand at the places `ids` of s; false if one of them has none. Then those of the components
// before it are assigned.
pub fn find_slots(s: &[u8], ids: &Places, n: usize, slots: &[u8], memory: &mut Memory) -> bool
    requires { (n ≤ limits.components) × InBytes ids.now n (length s.now) × Short slots.now }
    ensures { SlotsFound (names_at s.now ids.now n) slots.now memory result }
{
    for i in 0..n {
        let from = ids[2 * i];
        let Some(k) = slot_of(s, from, ids[2 * i + 1] - from, slots) else {
            return false;
        };
        memory[i] = k;
    }
    true
}
