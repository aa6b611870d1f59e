// Why a line of a device description is refused, as text in lent room (docs/DEPOT.md).
#![tactic(auto)]

ghost use Rattle.text.specs.Text.{Writes};
ghost use Rattle.device_faults.specs.Faults.{line_fault, fault_text};

use crate::image::put_answer_fault;
use crate::setting::put_setting_fault;
use crate::slot::put_slot_fault;
use byte_buffer::is;
use device_text::line::line_of;
use device_text::{rest, word};
use text::{put, put_byte};
use text_pieces::put_labelled;

mod image;
mod setting;
mod slot;

// What is wrong in a line: the tests are made in the reader's order.
#[tactic(auto, unfolding(crate::specs::Faults::line_fault))]
fn put_line_fault(room: &mut [u8], at: usize, l: &[u8]) -> usize
    ensures { Writes (line_fault l.now) at room result }
{
    let w = word(l);
    if is(w, b"slot") {
        return put_slot_fault(room, at, rest(l));
    }
    if is(w, b"answer") {
        return put_answer_fault(room, at, rest(l));
    }
    put_setting_fault(room, at, w)
}

// The line of that number, counted from 1, of a description that the reader refused by it.
pub fn put_fault(room: &mut [u8], at: usize, text: &[u8], line: usize) -> usize
    ensures { Writes (fault_text text.now line) at room result }
{
    let a = put_labelled(room, at, b"line ", line);
    let b = put(room, a, b": ");
    let c = put_line_fault(room, b, line_of(text, line));
    put_byte(room, c, b'\n')
}
