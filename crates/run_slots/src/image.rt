// The image of a slot: present, size and digest, laid out as an answer of the host.
#![tactic(auto, unfolding(rules::specs::Slots::image_at))]

ghost use Rattle.std.specs.Prelude.{◌≡◌, ◌+◌, ◌≤◌, length};
ghost use Rattle.rules.specs.Bytes.{part};
ghost use Rattle.rules.specs.Slots.{answer_bytes, image_at, put_image};
ghost use Rattle.run_slots.specs.Slot.{Holds};

use rules::slot_format::{IMAGE, IMAGE_BYTES, Image, SLOT_BYTES};

// The answer or the image at `at`. Byte by byte, here and below: copy_from_slice is a call, and a swap makes four of them.
pub fn take(b: &[u8], at: usize) -> Image
    requires { at + answer_bytes ≤ length b.now }
    ensures { result ≡ part b.now at answer_bytes }
{
    let mut image = [0u8; IMAGE_BYTES];
    for k in 0..IMAGE_BYTES {
        image[k] = b[at + k];
    }
    image
}

pub fn image(slots: &[u8], k: usize) -> Image
    requires { Holds slots.now k }
    ensures { result ≡ image_at slots.now k }
{
    take(slots, SLOT_BYTES * k + IMAGE)
}

// Puts the image into the slot of number k.
pub fn put_image(slots: &mut [u8], k: usize, image: Image)
    requires { Holds slots.old k }
    ensures { slots.new ≡ put_image slots.old k image }
{
    let at = SLOT_BYTES * k + IMAGE;
    for i in 0..IMAGE_BYTES {
        slots[at + i] = image[i];
    }
}
