// Fetch: the host's next answer into a slot.
#![tactic(auto)]

ghost use Rattle.std.specs.Prelude.{◌≡◌, ◌%◌, length};
ghost use Rattle.rules.specs.Slots.{answer_bytes};
ghost use Rattle.run_slots.specs.Slot.{Holds};
ghost use Rattle.run_actions.specs.Action.{Ends, Fetches};

use byte_buffer::four;
use rules::answers::{End, Failure};
use rules::slot_format::{IMAGE_BYTES, SIZE};
use run_actions::{Effect, effect_of};
use run_slots::image::{put_image, take};
use run_slots::params::Params;
use run_slots::slot::capacity;

// 21, with the parameters p, for the slot of number k.
pub fn fetch(p: Params, answers: &[u8], used: usize, slots: &mut [u8], k: usize) -> Effect
    requires { Holds slots.old k × (length answers.now % answer_bytes ≡ 0) }
    ensures { Ends result.end × Fetches p answers.now used slots k result }
{
    let uri = p.uri;
    if uri == 0 {
        return effect_of(Failure::PARAMETER_UNSET, used);
    }
    if answers.len() / IMAGE_BYTES <= used {
        return effect_of(Failure::NO_ANSWER, used);
    }
    let at = IMAGE_BYTES * used;
    let taken = used + 1;
    if answers[at] != 0 {
        return effect_of(Failure::BAD_STATUS, taken);
    }
    if capacity(slots, k) < four(answers, at + SIZE) {
        return effect_of(Failure::TOO_LARGE, taken);
    }
    let mut answer = take(answers, at);
    answer[0] = 1;
    put_image(slots, k, answer);
    effect_of(End::FINISHED, taken)
}
