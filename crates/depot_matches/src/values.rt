// The parameters that components have before an event, from the records of the program.
ghost use Rattle.std.specs.Prelude.{◌≡◌, ◌+◌, ◌*◌, ◌≤◌, length, get_or};
ghost use Rattle.rules.specs.Bytes.{two_at};
ghost use Rattle.rules.specs.ProgramFormat.{argument_from, entry_length_from, entry_size};
ghost use Rattle.rules.specs.ProgramFormat.{record_size as ProgramFormat·recordSize};
ghost use Rattle.rules.specs.Step.{event_bytes};
ghost use Rattle.depot_record_lines.specs.Lines.{record_size};
ghost use Rattle.depot_matches.specs.Values.{first_in, record_is, argument_in, argument_of, entry_in, value_in, first_set, value_after, value_before};

use crate::events::{Event, event_at};
use byte_buffer::{two, wide};
use depot_listing::components::after_components;
use rules::codes;
use rules::controller::Controller;
use rules::program_format::{
    ARGUMENT_LENGTH, CODE, COMPONENT, ENTRY_BYTES, ENTRY_LENGTH, PLACE, RECORD_BYTES, START_BYTES,
    START_COMPONENTS, START_RECORDS,
};

// The keys that a program has: all but coerce.
const KEYS: usize = Controller::PARAMETERS - 1;

// Whether the record at the start of the bytes is that of the event.
#[tactic(auto, unfolding(crate::specs::Values::record_is))]
fn record_is(s: &[u8], e: Event) -> bool
    requires { ProgramFormat·recordSize ≤ length s.now }
    ensures { result ≡ record_is e s.now }
{
    wide(s[CODE]) == e.code && wide(s[COMPONENT]) == e.component && two(s, PLACE) == e.place
}

#[tactic(auto, unfolding(crate::specs::Values::argument_in))]
fn argument_in(s: &[u8]) -> &[u8]
    requires { ProgramFormat·recordSize + two_at s.now argument_from ≤ length s.now }
    ensures { result.now ≡ argument_in s.now }
{
    let end = RECORD_BYTES + two(s, ARGUMENT_LENGTH);
    &s[RECORD_BYTES..end]
}

// The argument of the event's record among the records, nothing if it is not there.
fn argument_among(s: &[u8], total: usize, e: Event) -> &[u8]
    ensures { result.now ≡ first_in record_size (record_is e) argument_in total s.now }
{
    let mut rest = s;
    for _ in 0..total {
        let Some(size) = depot_record_lines::size_of(rest) else {
            return &[];
        };
        if record_is(rest, e) {
            return argument_in(rest);
        }
        rest = &rest[size..];
    }
    &[]
}

fn argument_of(p: &[u8], e: Event) -> &[u8]
    ensures { result.now ≡ argument_of p.now e }
{
    if p.len() < START_BYTES {
        return &[];
    }
    let records = after_components(&p[START_BYTES..], wide(p[START_COMPONENTS]));
    argument_among(records, two(p, START_RECORDS), e)
}

#[tactic(auto, unfolding(crate::specs::Values::entry_in))]
fn entry_in(s: &[u8]) -> &[u8]
    requires { entry_size + get_or s.now entry_length_from 0 ≤ length s.now }
    ensures { result.now ≡ entry_in s.now }
{
    let end = ENTRY_BYTES + wide(s[ENTRY_LENGTH]);
    &s[ENTRY_BYTES..end]
}

// The value of a key in an argument, nothing if it is not there.
fn value_in(s: &[u8], key: usize) -> &[u8]
    ensures { result.now ≡ value_in key s.now }
{
    let mut rest = s;
    for _ in 0..KEYS {
        let Some(size) = depot_argument_lines::size_of(rest) else {
            return &[];
        };
        if wide(rest[0]) == key {
            return entry_in(rest);
        }
        rest = &rest[size..];
    }
    &[]
}

fn first_set<'a>(a: &'a [u8], b: &'a [u8]) -> &'a [u8]
    ensures { result.now ≡ first_set a.now b.now }
{
    if a.is_empty() { b } else { a }
}

// The value of a key that component c has after an event, before which it was v.
#[tactic(auto, unfolding(crate::specs::Values::value_after))]
fn value_after<'a>(p: &'a [u8], e: Event, key: usize, c: usize, v: &'a [u8]) -> &'a [u8]
    ensures { result.now ≡ value_after p.now e key c v.now }
{
    if e.component != c {
        return v;
    }
    match e.code {
        codes::SET_PARAMETERS => first_set(v, value_in(argument_of(p, e), key)),
        codes::OVERRIDE_PARAMETERS => first_set(value_in(argument_of(p, e), key), v),
        _ => v,
    }
}

pub(crate) fn value_before<'a>(
    p: &'a [u8],
    trace: &[u8],
    key: usize,
    c: usize,
    n: usize,
) -> &'a [u8]
    requires { event_bytes * n ≤ length trace.now }
    ensures { result.now ≡ value_before p.now trace.now key c n }
{
    let mut v: &[u8] = &[];
    for i in 0..n {
        v = value_after(p, event_at(trace, i), key, c, v);
    }
    v
}
