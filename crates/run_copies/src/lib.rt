// Copy and swap: images from slot to slot.
#![tactic(auto)]

ghost use Rattle.std.specs.Prelude.{◌≤◌};
ghost use Rattle.rules.specs.Limits.{limits};
ghost use Rattle.rules.specs.Step as Step;
ghost use Rattle.run_slots.specs.Slot.{Holds};
ghost use Rattle.run_actions.specs.Action.{Ends, AllHold, Fills};

use rules::answers::{End, Failure};
use rules::controller::Memory;
use run_slots::image::{image, put_image};
use run_slots::params::Params;
use run_slots::slot::{capacity, present, size};

// 22, with the parameters p, to the slot of number k.
pub fn copy(p: Params, memory: &Memory, slots: &mut [u8], k: usize) -> usize
    requires { Holds slots.old k × AllHold memory.now slots.old × (p.source ≤ limits.components) }
    ensures { Ends result × Fills Step.copies p memory.now slots k result }
{
    let source = p.source;
    if source == 0 {
        return Failure::PARAMETER_UNSET;
    }
    let j = memory[source - 1];
    if !present(slots, j) {
        return Failure::NOTHING_TO_COPY;
    }
    if capacity(slots, k) < size(slots, j) {
        return Failure::TOO_LARGE;
    }
    put_image(slots, k, image(slots, j));
    End::FINISHED
}

// 32, with the parameters p, between the slot of number k and the source's.
pub fn swap(p: Params, memory: &Memory, slots: &mut [u8], k: usize) -> usize
    requires { Holds slots.old k × AllHold memory.now slots.old × (p.source ≤ limits.components) }
    ensures { Ends result × Fills Step.swaps p memory.now slots k result }
{
    let source = p.source;
    if source == 0 {
        return Failure::PARAMETER_UNSET;
    }
    let j = memory[source - 1];
    if !present(slots, k) {
        return Failure::NOTHING_TO_COPY;
    }
    if !present(slots, j) {
        return Failure::NOTHING_TO_COPY;
    }
    if capacity(slots, k) < size(slots, j) {
        return Failure::TOO_LARGE;
    }
    if capacity(slots, j) < size(slots, k) {
        return Failure::TOO_LARGE;
    }
    let own = image(slots, k);
    put_image(slots, k, image(slots, j));
    put_image(slots, j, own);
    End::FINISHED
}
