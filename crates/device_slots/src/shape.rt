// Whether what stands in a line is a slot, or an answer.
ghost use Rattle.std.specs.Prelude.{◌≡◌};
ghost use Rattle.device_slots.specs.SlotText as Rule;

use byte_buffer::is;
use device_text::read::{decimal, is_bytes, up_to_bytes};
use device_text::{rest, word};
use rules::controller::Controller;

pub const LARGEST_STATUS: usize = 255;

// A size and a digest.
#[tactic(auto, unfolding(crate::specs::SlotText::is_image))]
fn is_image(t: &[u8]) -> bool
    ensures { result ≡ Rule.is_image t.now }
{
    decimal(word(t)).is_some() && is_bytes(Controller::DIGEST_BYTES, rest(t))
}

// Whether a slot is present, and its image.
#[tactic(auto, unfolding(crate::specs::SlotText::is_state))]
fn is_state(w: &[u8], t: &[u8]) -> bool
    ensures { result ≡ Rule.is_state w.now t.now }
{
    if is(w, b"present") {
        is_image(t)
    } else {
        is(w, b"absent") && (t.is_empty() || is_image(t))
    }
}

#[tactic(auto, unfolding(crate::specs::SlotText::is_slot))]
pub fn is_slot(t: &[u8]) -> bool
    ensures { result ≡ Rule.is_slot t.now }
{
    let t2 = rest(t);
    let t3 = rest(t2);
    up_to_bytes(Controller::IDENTIFIER_BYTES, word(t))
        && decimal(word(t2)).is_some()
        && is_state(word(t3), rest(t3))
}

// The status of an answer: good, bad or a number.
#[tactic(auto, unfolding(crate::specs::SlotText::status))]
pub fn status(w: &[u8]) -> Option<usize>
    ensures { result ≡ Rule.a_status w.now }
{
    if is(w, b"good") {
        Some(0)
    } else if is(w, b"bad") {
        Some(1)
    } else {
        decimal(w)
    }
}

#[tactic(auto, unfolding(crate::specs::SlotText::is_answer))]
pub fn is_answer(t: &[u8]) -> bool
    ensures { result ≡ Rule.is_answer t.now }
{
    let Some(status) = status(word(t)) else {
        return false;
    };
    status <= LARGEST_STATUS && is_image(rest(t))
}
