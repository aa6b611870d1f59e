// The commands that look at the device or a slot, and change nothing.
ghost use Rattle.std.specs.Prelude.{◌≡◌, ◌+◌, ◌≤◌, ◌<◌, length};
ghost use Rattle.rules.specs.Answers.{end_of};
ghost use Rattle.rules.specs.Bytes.{part, same};
ghost use Rattle.rules.specs.Limits.{limits};
ghost use Rattle.rules.specs.Step as Step;
ghost use Rattle.run_slots.specs.Slot.{Holds};
ghost use Rattle.run_actions.specs.Action.{Ends, Matches, Runs};

use byte_buffer::equal;
use rules::answers::{End, Failure};
use rules::controller::{Controller, Sixteen};
use rules::slot_format::{SLOT_BYTES, SLOT_DIGEST};
use run_slots::params::Params;
use run_slots::slot::{present, size};

// 1 and 2: pass on equal bytes.
pub fn equal_sixteen(s: &[u8], at: usize, own: &Sixteen) -> usize
    requires { at + limits.class ≤ length s.now }
    ensures { Ends result × ((st : Step.State) → Step.out (end_of result) st ≡ Step.passes (same (part s.now at limits.class) own.now) st) }
{
    if !equal(s, at, own, 0, Controller::CLASS_BYTES) {
        return End::CONDITION_FAILED;
    }
    End::FINISHED
}

// 3, with the parameters p, for the slot of number k.
pub fn matches(s: &[u8], p: Params, slots: &[u8], k: usize) -> usize
    requires { Holds slots.now k × (0 < p.digest → p.digest + limits.digest ≤ length s.now) }
    ensures { Ends result × Matches s.now p slots.now k result }
{
    let digest = p.digest;
    if digest == 0 {
        return Failure::PARAMETER_UNSET;
    }
    if !present(slots, k) {
        return End::CONDITION_FAILED;
    }
    if !equal(
        slots,
        SLOT_BYTES * k + SLOT_DIGEST,
        s,
        digest,
        Controller::DIGEST_BYTES,
    ) {
        return End::CONDITION_FAILED;
    }
    let wanted = p.size;
    if wanted == 0 {
        return End::FINISHED;
    }
    if wanted - 1 == size(slots, k) {
        return End::FINISHED;
    }
    End::CONDITION_FAILED
}

// 23, for the slot of number k.
pub fn runs(slots: &[u8], k: usize) -> usize
    requires { Holds slots.now k }
    ensures { Ends result × Runs slots.now k result }
{
    if present(slots, k) {
        return End::STARTED;
    }
    Failure::NOTHING_TO_RUN
}
