// The fields of a slot.
#![tactic(auto, using(rules::proofs::BytesLaws::num_4), unfolding(rules::specs::Slots::slot_at))]

ghost use Rattle.std.specs.Prelude.{◌≡◌};
ghost use Rattle.rules.specs.Slots.{slot_at, good_slot};
ghost use Rattle.run_slots.specs.Slot.{Holds};

use byte_buffer::four;
use rules::controller::Controller;
use rules::slot_format::{CAPACITY, IMAGE, SLOT_BYTES, SLOT_SIZE};

pub fn capacity(slots: &[u8], k: usize) -> usize
    requires { Holds slots.now k }
    ensures { result ≡ (slot_at slots.now k).capacity }
{
    four(slots, SLOT_BYTES * k + CAPACITY)
}

pub fn present(slots: &[u8], k: usize) -> bool
    requires { Holds slots.now k }
    ensures { result ≡ (slot_at slots.now k).present }
{
    slots[SLOT_BYTES * k + IMAGE] != 0
}

pub fn size(slots: &[u8], k: usize) -> usize
    requires { Holds slots.now k }
    ensures { result ≡ (slot_at slots.now k).size }
{
    four(slots, SLOT_BYTES * k + SLOT_SIZE)
}

// 85, of one slot.
pub fn good_slot(slots: &[u8], k: usize) -> bool
    requires { Holds slots.now k }
    ensures { result ≡ good_slot (slot_at slots.now k) }
{
    let length = slots[SLOT_BYTES * k] as usize;
    1 <= length
        && length <= Controller::IDENTIFIER_BYTES
        && (!present(slots, k) || size(slots, k) <= capacity(slots, k))
}
