// The listing of a program: a line for the program, for each component, each record and each parameter.
#![tactic(auto)]

ghost use Rattle.std.specs.Prelude.{◌≤◌, length};
ghost use Rattle.rules.specs.ProgramFormat.{start_size};
ghost use Rattle.text.specs.Text.{Writes};
ghost use Rattle.depot_listing.specs.Listing.{group_text, counts_text, start_text, program_text};

pub mod components;

use byte_buffer::{four, two, wide};
use components::{after_components, put_components};
use depot_record_lines::put_records;
use rules::answers::Group;
use rules::program_format::{
    START_BYTES, START_COMPONENTS, START_GROUP, START_NUMBER, START_RECORDS,
};
use text::put;
use text_pieces::{put_counted, put_labelled};

fn put_group(room: &mut [u8], at: usize, group: usize) -> usize
    ensures { Writes (group_text group) at room result }
{
    if group == wide(Group::Boot.number()) {
        put(room, at, b"boot")
    } else {
        put(room, at, b"install")
    }
}

fn put_counts(room: &mut [u8], at: usize, components: usize, records: usize) -> usize
    ensures { Writes (counts_text components records) at room result }
{
    let a = put_counted(room, at, b", ", components, b" component");
    let b = put_counted(room, a, b", ", records, b" record");
    put(room, b, b"\n")
}

fn put_start(room: &mut [u8], at: usize, p: &[u8]) -> usize
    requires { start_size ≤ length p.now }
    ensures { Writes (start_text p.now) at room result }
{
    let a = put_group(room, at, wide(p[START_GROUP]));
    let b = put_labelled(room, a, b" program, number ", four(p, START_NUMBER));
    put_counts(room, b, wide(p[START_COMPONENTS]), two(p, START_RECORDS))
}

pub fn put_program(room: &mut [u8], at: usize, p: &[u8]) -> usize
    ensures { Writes (program_text p.now) at room result }
{
    if p.len() < START_BYTES {
        return put(room, at, b"?\n");
    }
    let count = wide(p[START_COMPONENTS]);
    let s = &p[START_BYTES..];
    let a = put_start(room, at, p);
    let b = put_components(room, a, s, count);
    let records = after_components(s, count);
    put_records(room, b, records, two(p, START_RECORDS))
}
