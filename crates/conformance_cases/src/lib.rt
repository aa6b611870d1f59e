// A case of the conformance program: a job with its input in a compact form, done, and its answer as a line of text.
#![tactic(auto)]

ghost use Rattle.std.specs.Prelude.{◌≡◌, ◌<◌, length};
ghost use Rattle.text.specs.Text.{Writes};
ghost use Rattle.conformance_cases.specs.Fields.{run_head};
ghost use Rattle.conformance_cases.specs.Cases.{malformed_text, line_of, job_line, newer_case, translate_case, run_case, run_slots, run_answers, head_case};

mod fields;
mod jobs;

use byte_buffer::two;
use fields::{RUN_HEAD, string_end};
use jobs::{check_line, head_line, newer_line, run_line, translate_line};
use text::put;

const CHECK: u8 = 1;

const NEWER: u8 = 2;

const TRANSLATE: u8 = 3;

const RUN: u8 = 4;

const RUN_PROGRAM: u8 = 5;

const HEAD: u8 = 6;

const TRANSLATE_HEAD: usize = 3;

const PLACE_BYTES: usize = 2;

fn put_malformed(room: &mut [u8]) -> usize
    ensures { Writes malformed_text 0 room result }
{
    put(room, 0, b"malformed\n")
}

fn newer_case(b: &[u8], room: &mut [u8]) -> usize
    ensures { Writes (newer_case b.now) 0 room result }
{
    let Some(end) = string_end(b) else {
        return put_malformed(room);
    };
    newer_line(&b[2..end], &b[end..], room)
}

fn translate_case(b: &[u8], room: &mut [u8]) -> usize
    ensures { Writes (translate_case b.now) 0 room result }
{
    if b.len() < TRANSLATE_HEAD {
        return put_malformed(room);
    }
    let boot = b[0] != 0;
    translate_line(&b[TRANSLATE_HEAD..], boot, two(b, 1), room)
}

fn run_answers(program: bool, head: &[u8], slots: &[u8], b: &[u8], room: &mut [u8]) -> usize
    requires { (length head.now ≡ run_head) × (length slots.now < 65536) }
    ensures { Writes (run_answers program head.now slots.now b.now) 0 room result }
{
    let Some(end) = string_end(b) else {
        return put_malformed(room);
    };
    run_line(program, head, slots, &b[2..end], &b[end..], room)
}

fn run_slots(program: bool, head: &[u8], b: &[u8], room: &mut [u8]) -> usize
    requires { length head.now ≡ run_head }
    ensures { Writes (run_slots program head.now b.now) 0 room result }
{
    let Some(end) = string_end(b) else {
        return put_malformed(room);
    };
    run_answers(program, head, &b[2..end], &b[end..], room)
}

fn run_case(program: bool, b: &[u8], room: &mut [u8]) -> usize
    ensures { Writes (run_case program b.now) 0 room result }
{
    if b.len() < RUN_HEAD {
        return put_malformed(room);
    }
    run_slots(program, &b[..RUN_HEAD], &b[RUN_HEAD..], room)
}

fn head_case(b: &[u8], room: &mut [u8]) -> usize
    ensures { Writes (head_case b.now) 0 room result }
{
    if b.len() < PLACE_BYTES {
        return put_malformed(room);
    }
    head_line(&b[PLACE_BYTES..], two(b, 0), room)
}

#[tactic(auto, unfolding(crate::specs::Cases::job_line))]
fn job_line(job: u8, b: &[u8], room: &mut [u8]) -> usize
    ensures { Writes (job_line job b.now) 0 room result }
{
    match job {
        CHECK => check_line(b, room),
        NEWER => newer_case(b, room),
        TRANSLATE => translate_case(b, room),
        RUN => run_case(false, b, room),
        RUN_PROGRAM => run_case(true, b, room),
        HEAD => head_case(b, room),
        _ => put_malformed(room),
    }
}

// Does the case and writes its line at the start of the room.
pub fn answer(case: &[u8], room: &mut [u8]) -> usize
    ensures { Writes (line_of case.now) 0 room result }
{
    if case.is_empty() {
        return put_malformed(room);
    }
    job_line(case[0], &case[1..], room)
}
