// A device as the text that describes it, in lent room (docs/DEPOT.md).
#![tactic(auto)]

ghost use Rattle.std.specs.Prelude.{cond};
ghost use Rattle.text.specs.Text.{Writes};
ghost use Rattle.device_writing.specs.Device.{name_line, number_line, setting_lines, device_text};

use crate::slots::put_slots;
use device_description::Scenario;
use text::{put, put_byte};
use text_numbers::put_hex;
use text_pieces::put_labelled;

mod slots;

fn put_flag(room: &mut [u8], at: usize, on: bool, yes: &[u8], no: &[u8]) -> usize
    ensures { Writes (cond on yes.now no.now) at room result }
{
    if on {
        return put(room, at, yes);
    }
    put(room, at, no)
}

// A vendor or a class.
fn put_name(room: &mut [u8], at: usize, label: &[u8], bytes: &[u8]) -> usize
    ensures { Writes (name_line label.now bytes.now) at room result }
{
    let a = put(room, at, label);
    let b = put_hex(room, a, bytes);
    put_byte(room, b, b'\n')
}

fn put_number(room: &mut [u8], at: usize, n: usize) -> usize
    ensures { Writes (number_line n) at room result }
{
    let a = put_labelled(room, at, b"number ", n);
    put_byte(room, a, b'\n')
}

// The lines that set a value.
fn put_settings(room: &mut [u8], at: usize, d: Scenario, number: usize) -> usize
    ensures { Writes (setting_lines d number) at room result }
{
    let vendor = d.vendor;
    let class = d.class;
    let a = put_flag(room, at, d.verdict, b"verdict good\n", b"verdict bad\n");
    let b = put_name(room, a, b"vendor ", &vendor);
    let c = put_name(room, b, b"class ", &class);
    let e = put_number(room, c, number);
    put_flag(room, e, d.event, b"event open\n", b"event closed\n")
}

// The device of a description, with the number and the slots that it has now. Its answers are none of it.
pub fn put_device(room: &mut [u8], at: usize, d: Scenario, number: usize, slots: &[u8]) -> usize
    ensures { Writes (device_text d number slots.now) at room result }
{
    let a = put_settings(room, at, d, number);
    put_slots(room, a, slots)
}
