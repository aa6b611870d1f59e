// Device descriptions: the input of a run, read from a text (docs/DEPOT.md).
#![tactic(auto)]

ghost use Rattle.std.specs.Prelude.{◌≡◌, ◌&&◌, ◌+◌, leb, length};
ghost use Rattle.rules.specs.Bytes.{same};
ghost use Rattle.device_description.specs.Scenario as Rule;
ghost use Rattle.device_description.specs.Values.{flag_if, name_of, set};

use byte_buffer::is;
use device_slots::put::{put_answer, put_slot, sixteen};
use device_slots::shape::{is_answer, is_slot};
use device_text::line::{line_at, next_line};
use device_text::read::{decimal, is_bytes};
use device_text::{rest, word};
use rules::controller::{Controller, Sixteen};
use rules::slot_format::{IMAGE_BYTES, SLOT_BYTES};

// The rooms that the depot lends: for twice as many slots as a run takes, so that the run tells of too many, and for 64 answers.
pub const MOST_SLOTS: usize = 2 * Controller::SLOTS;

pub const MOST_ANSWERS: usize = 64;

pub const SLOTS_ROOM: usize = MOST_SLOTS * SLOT_BYTES;

pub const ANSWERS_ROOM: usize = MOST_ANSWERS * IMAGE_BYTES;

// What a description says. The slots and the answers stand in the lent rooms; here is how many bytes they have.
#[derive(Clone, Copy)]
pub struct Scenario {
    pub verdict: bool,
    pub vendor: Sixteen,
    pub class: Sixteen,
    pub number: usize,
    pub event: bool,
    pub slots: usize,
    pub answers: usize,
    // the number of the line that is not understood; the rest is what the lines before it say
    pub refused: Option<usize>,
}

fn start() -> Scenario
    ensures { result ≡ Rule.start }
{
    Scenario {
        verdict: true,
        vendor: [0; Controller::CLASS_BYTES],
        class: [0; Controller::CLASS_BYTES],
        number: 0,
        event: false,
        slots: 0,
        answers: 0,
        refused: None,
    }
}

fn refuse(d: Scenario, n: usize) -> Scenario
    ensures { result ≡ Rule.refused_at n d }
{
    Scenario {
        refused: Some(n),
        ..d
    }
}

// What a line says of a truth value, and of a vendor or class.
fn read_flag(t: &[u8], yes: &[u8], no: &[u8]) -> Option<bool>
    ensures { result ≡ flag_if (same t.now yes.now) (same t.now no.now) }
{
    if is(t, yes) {
        Some(true)
    } else if is(t, no) {
        Some(false)
    } else {
        None
    }
}

fn read_name(t: &[u8]) -> Option<Sixteen>
    ensures { result ≡ name_of t.now }
{
    if is_bytes(Controller::CLASS_BYTES, t) {
        Some(sixteen(t))
    } else {
        None
    }
}

// The description with the value that a line sets: w is the word in front, t what stands behind it. None if that is not understood.
// A chain of `is`: to match on text the word is tested for UTF-8 first, which took a quarter more time for a whole run of the tool.
#[tactic(auto, unfolding(crate::specs::Values::set))]
fn set(mut d: Scenario, w: &[u8], t: &[u8]) -> Option<Scenario>
    ensures { result ≡ set d w.now t.now }
{
    if is(w, b"verdict") {
        d.verdict = read_flag(t, b"good", b"bad")?;
    } else if is(w, b"vendor") {
        d.vendor = read_name(t)?;
    } else if is(w, b"class") {
        d.class = read_name(t)?;
    } else if is(w, b"number") {
        d.number = decimal(t)?;
    } else if is(w, b"event") {
        d.event = read_flag(t, b"open", b"closed")?;
    } else {
        return None;
    }
    Some(d)
}

// Line n, if it is one that sets a value.
#[tactic(auto, using(crate::proofs::ScenarioLaws::set_setting))]
fn setting(d: Scenario, n: usize, w: &[u8], t: &[u8]) -> Scenario
    ensures { result ≡ Rule.setting n d w.now t.now }
{
    set(d, w, t).unwrap_or(refuse(d, n))
}

// Whether something is what it should be, and its `width` bytes from `at` on fit a room of that length.
fn fits(good: bool, at: usize, width: usize, length: usize) -> bool
    ensures { result ≡ (good && leb (at + width) length) }
{
    good && width <= length && at <= length - width
}

fn slot_line(mut d: Scenario, n: usize, t: &[u8], slots: &mut [u8]) -> Scenario
    ensures { Rule.TakesSlot (Rule.slot_line (length slots.old) n d t.now) d slots result }
{
    let at = d.slots;
    if !fits(is_slot(t), at, SLOT_BYTES, slots.len()) {
        return refuse(d, n);
    }
    put_slot(slots, at, t);
    d.slots = at + SLOT_BYTES;
    d
}

fn answer_line(mut d: Scenario, n: usize, t: &[u8], answers: &mut [u8]) -> Scenario
    ensures { Rule.TakesAnswer (Rule.answer_line (length answers.old) n d t.now) d answers result }
{
    let at = d.answers;
    if !fits(is_answer(t), at, IMAGE_BYTES, answers.len()) {
        return refuse(d, n);
    }
    put_answer(answers, at, t);
    d.answers = at + IMAGE_BYTES;
    d
}

// One line.
fn take_line(d: Scenario, n: usize, l: &[u8], slots: &mut [u8], answers: &mut [u8]) -> Scenario
    ensures { Rule.Takes (Rule.line (length slots.old) (length answers.old) n d l.now) d slots answers result }
{
    if l.is_empty() {
        return d;
    }
    let w = word(l);
    let t = rest(l);
    if is(w, b"slot") {
        return slot_line(d, n, t, slots);
    }
    if is(w, b"answer") {
        return answer_line(d, n, t, answers);
    }
    setting(d, n, w, t)
}

// A description, whatever its bytes. Slots and answers are put into the lent rooms, each from the start; more than fit are refused as a line is.
pub fn describe(text: &[u8], slots: &mut [u8], answers: &mut [u8]) -> Scenario
    ensures { Rule.Holds (Rule.described (length slots.old) (length answers.old) text.now) slots answers result }
{
    let mut d = start();
    let mut n = 1;
    let mut at = 0;
    // A while: a turn goes on to where the next line starts.
    while at < text.len() {
        d = take_line(d, n, line_at(text, at), slots, answers);
        if d.refused.is_some() {
            return d;
        }
        at = next_line(text, at);
        n += 1;
    }
    d
}
