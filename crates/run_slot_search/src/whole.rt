// 85: whole slots, 1 to 8 of them, each good, no identifier twice.
ghost use Rattle.std.specs.Prelude.{◌≡◌, ◌+◌, ◌*◌, ◌≤◌, ◌<◌, length};
ghost use Rattle.rules.specs.Bytes.{member, repeats};
ghost use Rattle.rules.specs.Slots.{slot_bytes, slot_at, all_good, good_slots};
ghost use Rattle.run_slots.specs.Slot.{Short};
ghost use Rattle.run_slot_search.specs.Search.{slots_from, names_from};

use crate::search::named;
use rules::controller::Controller;
use rules::slot_format::{IDENTIFIER, SLOT_BYTES};
use run_slots::slot::good_slot;

// Whether each of the n slots is good.
pub(crate) fn all_good(slots: &[u8], n: usize) -> bool
    requires { slot_bytes * n ≤ length slots.now }
    ensures { result ≡ all_good (slots_from slots.now 0 n) }
{
    (0..n).all(|k| good_slot(slots, k))
}

// Whether one of the slots after number i has its identifier.
pub(crate) fn named_again(slots: &[u8], i: usize, n: usize) -> bool
    requires { (i < n) × (slot_bytes * n ≤ length slots.now) × Short slots.now }
    ensures { result ≡ member (slot_at slots.now i).id (names_from slots.now (i + 1) n) }
{
    let at = SLOT_BYTES * i;
    let length = slots[at] as usize;
    (i + 1..n).any(|k| named(slots, at + IDENTIFIER, length, slots, k))
}

pub(crate) fn one_twice(slots: &[u8], n: usize) -> bool
    requires { (slot_bytes * n ≤ length slots.now) × Short slots.now }
    ensures { result ≡ repeats (names_from slots.now 0 n) }
{
    (0..n).any(|i| named_again(slots, i, n))
}

#[tactic(auto, using(crate::proofs::SearchLaws::good_tests, crate::proofs::SearchLaws::all_short))]
pub fn good_slots(slots: &[u8]) -> bool
    ensures { result ≡ good_slots slots.now }
{
    let n = slots.len() / SLOT_BYTES;
    slots.len() % SLOT_BYTES == 0
        && 1 <= n
        && n <= Controller::SLOTS
        && all_good(slots, n)
        && !one_twice(slots, n)
}
