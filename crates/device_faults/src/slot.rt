// Why a slot is refused.
ghost use Rattle.text.specs.Text.{Writes};
ghost use Rattle.device_faults.specs.Faults.{state_fault, identifier_text, slot_fault};

use crate::image::{put_image_fault, put_too_many};
use byte_buffer::is;
use device_description::MOST_SLOTS;
use device_text::read::{decimal, up_to_bytes};
use device_text::{rest, word};
use rules::controller::Controller;
use text::put;
use text_pieces::put_labelled;

// Whether it is present, and its image.
#[tactic(auto, unfolding(crate::specs::Faults::state_fault))]
fn put_state_fault(room: &mut [u8], at: usize, w: &[u8], t: &[u8]) -> usize
    ensures { Writes (state_fault w.now t.now) at room result }
{
    let present = is(w, b"present");
    if !present && !is(w, b"absent") {
        return put(room, at, b"slot: neither present nor absent");
    }
    if !present && t.is_empty() {
        return put_too_many(room, at, MOST_SLOTS, b"slot");
    }
    put_image_fault(room, at, b"slot", MOST_SLOTS, t)
}

fn put_identifier(room: &mut [u8], at: usize) -> usize
    ensures { Writes identifier_text at room result }
{
    let a = put_labelled(
        room,
        at,
        b"slot: the identifier is not 1 to ",
        Controller::IDENTIFIER_BYTES,
    );
    put(room, a, b" bytes in hexadecimal")
}

#[tactic(auto, unfolding(crate::specs::Faults::slot_fault))]
pub(crate) fn put_slot_fault(room: &mut [u8], at: usize, t: &[u8]) -> usize
    ensures { Writes (slot_fault t.now) at room result }
{
    if !up_to_bytes(Controller::IDENTIFIER_BYTES, word(t)) {
        return put_identifier(room, at);
    }
    let t2 = rest(t);
    if decimal(word(t2)).is_none() {
        return put_labelled(
            room,
            at,
            b"slot: the capacity is no number up to ",
            Controller::LARGEST_NUMBER,
        );
    }
    let t3 = rest(t2);
    put_state_fault(room, at, word(t3), rest(t3))
}
