// Slots as lines of text.
ghost use Rattle.std.specs.Prelude.{◌≤◌, length};
ghost use Rattle.rules.specs.Slots.{slot_bytes};
ghost use Rattle.run_slots.specs.Slot.{Holds};
ghost use Rattle.text.specs.Text.{Writes};
ghost use Rattle.device_writing.specs.Device.{own_text, state_text, image_text, slot_line, slot_of, slot_lines};

use byte_buffer::{four, wide};
use rules::controller::Controller;
use rules::slot_format::{CAPACITY, IDENTIFIER, IMAGE, SLOT_BYTES, SLOT_DIGEST, SLOT_SIZE};
use text::{least, put, put_byte};
use text_numbers::put_decimal;
use text_pieces::{put_labelled, put_part};

// The identifier and the capacity.
fn put_own(room: &mut [u8], at: usize, x: &[u8]) -> usize
    requires { slot_bytes ≤ length x.now }
    ensures { Writes (own_text x.now) at room result }
{
    let n = least(wide(x[0]), Controller::IDENTIFIER_BYTES);
    let a = put(room, at, b"slot ");
    let b = put_part(room, a, x, IDENTIFIER, IDENTIFIER + n);
    put_labelled(room, b, b" ", four(x, CAPACITY))
}

fn put_state(room: &mut [u8], at: usize, present: u8) -> usize
    ensures { Writes (state_text present) at room result }
{
    if present == 0 {
        return put(room, at, b" absent ");
    }
    put(room, at, b" present ")
}

// Whether it is present, size and digest: an absent one too has them.
fn put_image(room: &mut [u8], at: usize, x: &[u8]) -> usize
    requires { slot_bytes ≤ length x.now }
    ensures { Writes (image_text x.now) at room result }
{
    let a = put_state(room, at, x[IMAGE]);
    let b = put_decimal(room, a, four(x, SLOT_SIZE));
    let c = put_byte(room, b, b' ');
    let d = put_part(room, c, x, SLOT_DIGEST, SLOT_BYTES);
    put_byte(room, d, b'\n')
}

// The slot whose bytes are x.
fn put_slot(room: &mut [u8], at: usize, x: &[u8]) -> usize
    requires { slot_bytes ≤ length x.now }
    ensures { Writes (slot_line x.now) at room result }
{
    let a = put_own(room, at, x);
    put_image(room, a, x)
}

// The slot of number k.
fn put_slot_of(room: &mut [u8], at: usize, slots: &[u8], k: usize) -> usize
    requires { Holds slots.now k }
    ensures { Writes (slot_of slots.now k) at room result }
{
    let from = SLOT_BYTES * k;
    let to = from + SLOT_BYTES;
    put_slot(room, at, &slots[from..to])
}

// The slots, as many as are whole.
pub(crate) fn put_slots(room: &mut [u8], at: usize, slots: &[u8]) -> usize
    ensures { Writes (slot_lines slots.now) at room result }
{
    let mut to = at;
    for k in 0..slots.len() / SLOT_BYTES {
        to = put_slot_of(room, to, slots, k);
    }
    to
}
