// Why a size and a digest are refused, and an answer.
ghost use Rattle.text.specs.Text.{Writes};
ghost use Rattle.device_faults.specs.Faults.{digest_text, too_many, image_fault, answer_fault};

use device_description::MOST_ANSWERS;
use device_slots::shape::{LARGEST_STATUS, status};
use device_text::read::{decimal, is_bytes};
use device_text::{rest, word};
use rules::controller::Controller;
use text::{put, put_byte};
use text_pieces::put_labelled;

// There are more of these things than the rooms have space for.
pub(crate) fn put_too_many(room: &mut [u8], at: usize, most: usize, name: &[u8]) -> usize
    ensures { Writes (too_many most name.now) at room result }
{
    let a = put_labelled(room, at, b"more than ", most);
    let b = put_byte(room, a, b' ');
    let c = put(room, b, name);
    put_byte(room, c, b's')
}

fn put_digest(room: &mut [u8], at: usize, name: &[u8]) -> usize
    ensures { Writes (digest_text name.now) at room result }
{
    let a = put(room, at, name);
    let b = put_labelled(room, a, b": the digest is not ", Controller::DIGEST_BYTES);
    put(room, b, b" bytes in hexadecimal")
}

// The size and the digest of a slot or an answer.
#[tactic(auto, unfolding(crate::specs::Faults::image_fault))]
pub(crate) fn put_image_fault(
    room: &mut [u8],
    at: usize,
    name: &[u8],
    most: usize,
    t: &[u8],
) -> usize
    ensures { Writes (image_fault name.now most t.now) at room result }
{
    if decimal(word(t)).is_none() {
        let a = put(room, at, name);
        return put_labelled(
            room,
            a,
            b": the size is no number up to ",
            Controller::LARGEST_NUMBER,
        );
    }
    if is_bytes(Controller::DIGEST_BYTES, rest(t)) {
        return put_too_many(room, at, most, name);
    }
    put_digest(room, at, name)
}

#[tactic(auto, unfolding(crate::specs::Faults::answer_fault))]
pub(crate) fn put_answer_fault(room: &mut [u8], at: usize, t: &[u8]) -> usize
    ensures { Writes (answer_fault t.now) at room result }
{
    if status(word(t)).is_some_and(|n| n <= LARGEST_STATUS) {
        return put_image_fault(room, at, b"answer", MOST_ANSWERS, rest(t));
    }
    put_labelled(
        room,
        at,
        b"answer: the status is not good, bad or a number up to ",
        LARGEST_STATUS,
    )
}
