// The images in the slots before an event: where each comes from, and its bytes.
ghost use Rattle.std.specs.Prelude.{◌≡◌, ◌+◌, ◌*◌, ◌≤◌, length};
ghost use Rattle.rules.specs.Step.{event_bytes};
ghost use Rattle.depot_matches.specs.Images.{source_at, moves as Images·moves, came_from, fetched_by, name_of, present_image, lent_image, answer_image};
ghost use Rattle.depot_matches.specs.Images.{origin_of, origin as Images·origin};

use crate::events::{Event, event_at, fetches_before, is_of};
use crate::values::value_before;
use byte_buffer::wide;
use depot_listing::components::{after_components, size_of};
use rules::answers::End;
use rules::codes;
use rules::controller::Controller;
use rules::program_format::{NAME_BYTES, START_BYTES};
use rules::slot_format::{IMAGE, IMAGE_BYTES, SLOT_BYTES};
use run_slot_search::search::slot_of;
use run_slot_search::whole::good_slots;
use run_slots::slot::present;

// Where an image comes from: the slot of a component before the run, or an answer of the host.
#[derive(Clone, Copy)]
pub enum ImageOrigin {
    Slot(usize),
    Answer(usize),
}

// The source of the command of event i.
#[tactic(auto, unfolding(crate::specs::Images::source_at))]
fn source_at(p: &[u8], trace: &[u8], i: usize) -> usize
    requires { event_bytes * i + event_bytes ≤ length trace.now }
    ensures { result ≡ source_at p.now trace.now i }
{
    let e = event_at(trace, i);
    let v = value_before(p, trace, codes::SOURCE, e.component, i);
    wide(v.first().copied().unwrap_or(0))
}

// Whether the event is a copy or a swap that was done.
fn moves(e: Event) -> bool
    ensures { result ≡ Images·moves e }
{
    is_of(e, codes::COPY, End::FINISHED) || is_of(e, codes::SWAP, End::FINISHED)
}

// The component whose image before event i is component c's after it.
#[tactic(auto, unfolding(crate::specs::Images::came_from))]
fn came_from(p: &[u8], trace: &[u8], i: usize, c: usize) -> usize
    requires { event_bytes * i + event_bytes ≤ length trace.now }
    ensures { result ≡ came_from p.now trace.now i c }
{
    let e = event_at(trace, i);
    if !moves(e) {
        return c;
    }
    let source = source_at(p, trace, i);
    if e.component == c {
        source
    } else if e.code != codes::COPY && source == c {
        e.component
    } else {
        c
    }
}

fn fetched_by(e: Event, c: usize) -> bool
    ensures { result ≡ fetched_by e c }
{
    e.component == c && is_of(e, codes::FETCH, End::FINISHED)
}

// The slot of component c before the run; a number past the components, which no run writes, stands for an answer.
fn origin_of(c: usize) -> ImageOrigin
    ensures { result ≡ origin_of c }
{
    if c < Controller::COMPONENTS {
        return ImageOrigin::Slot(c);
    }
    ImageOrigin::Answer(c - Controller::COMPONENTS)
}

// Where component c's image before event n comes from.
pub(crate) fn origin(p: &[u8], trace: &[u8], c: usize, n: usize) -> ImageOrigin
    requires { event_bytes * n ≤ length trace.now }
    ensures { result ≡ Images·origin p.now trace.now c n }
{
    let mut from = c;
    for i in (0..n).rev() {
        if fetched_by(event_at(trace, i), from) {
            return ImageOrigin::Answer(fetches_before(trace, i));
        }
        from = came_from(p, trace, i, from);
    }
    origin_of(from)
}

// The identifier of component c, nothing if it is missing.
fn name_of(p: &[u8], c: usize) -> &[u8]
    ensures { result.now ≡ name_of p.now c }
{
    if p.len() < START_BYTES {
        return &[];
    }
    let s = after_components(&p[START_BYTES..], c);
    let Some(end) = size_of(s) else {
        return &[];
    };
    &s[NAME_BYTES..end]
}

// The image of the slot of number k, nothing if there is none or it is absent.
fn present_image(slots: &[u8], k: usize) -> &[u8]
    ensures { result.now ≡ present_image slots.now k }
{
    if slots.len() / SLOT_BYTES <= k || !present(slots, k) {
        return &[];
    }
    let at = SLOT_BYTES * k + IMAGE;
    &slots[at..at + IMAGE_BYTES]
}

// The image in component c's slot, nothing if there is none or it is absent.
pub(crate) fn lent_image<'a>(p: &[u8], slots: &'a [u8], c: usize) -> &'a [u8]
    ensures { result.now ≡ lent_image p.now slots.now c }
{
    if !good_slots(slots) {
        return &[];
    }
    let name = name_of(p, c);
    match slot_of(name, 0, name.len(), slots) {
        Some(k) => present_image(slots, k),
        None => &[],
    }
}

// The answer of number k, nothing if there is none.
#[tactic(auto, unfolding(crate::specs::Images::answer_image))]
pub(crate) fn answer_image(answers: &[u8], k: usize) -> &[u8]
    ensures { result.now ≡ answer_image answers.now k }
{
    if answers.len() / IMAGE_BYTES <= k {
        return &[];
    }
    let at = IMAGE_BYTES * k;
    &answers[at..at + IMAGE_BYTES]
}
