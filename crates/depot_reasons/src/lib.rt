// What a refusal of a run is about, on a line below it: the numbers, a component, or a slot.
#![tactic(auto)]

ghost use Rattle.std.specs.Prelude.{◌≡◌, ◌≤◌, ◌<◌, IfSome};
ghost use Rattle.rules.specs.Limits.{limits};
ghost use Rattle.text.specs.Text.{Writes};
ghost use Rattle.depot_reasons.specs.Reasons.{group_text, numbers_text, has_no_slot, no_slot_text, reason_text};
ghost use Rattle.depot_reasons.specs.First.{first};

mod slots;

use depot_identifiers::put_identifier_at;
use depot_run_types::Subject;
use depot_slot_names::slot_with;
use rules::answers::Refusal;
use rules::controller::{Controller, Places};
use slots::put_bad_slots;
use text::{least, put, put_byte};
use text_pieces::{put_labelled, within};

#[tactic(auto, unfolding(crate::specs::Reasons::group_text))]
fn put_group(room: &mut [u8], at: usize, boot: bool) -> usize
    ensures { Writes (group_text boot) at room result }
{
    if boot {
        return put(room, at, b"  boot");
    }
    put(room, at, b"  install")
}

// 82.
fn put_numbers(room: &mut [u8], at: usize, boot: bool, number: usize, device: usize) -> usize
    ensures { Writes (numbers_text boot number device) at room result }
{
    let a = put_group(room, at, boot);
    let b = put_labelled(room, a, b": the manifest's number is ", number);
    let c = put_labelled(room, b, b", the device's ", device);
    put_byte(room, c, b'\n')
}

// Whether no slot has the identifier of component k.
fn has_no_slot(s: &[u8], ids: &Places, slots: &[u8], k: usize) -> bool
    requires { k < limits.components }
    ensures { result ≡ has_no_slot s.now ids.now slots.now k }
{
    let p = within(s, ids[2 * k], ids[2 * k + 1]);
    slot_with(&s[p.from..p.to], slots, 0).is_none()
}

fn first_without(s: &[u8], ids: &Places, n: usize, slots: &[u8]) -> Option<usize>
    requires { n ≤ limits.components }
    ensures which { result ≡ first (has_no_slot s.now ids.now slots.now) n 0 }
    ensures below { IfSome result (λ k. k < n) }
{
    for k in 0..n {
        if has_no_slot(s, ids, slots, k) {
            return Some(k);
        }
    }
    None
}

// 83.
fn put_no_slot(room: &mut [u8], at: usize, s: &[u8], ids: &Places, n: usize, slots: &[u8]) -> usize
    requires { n ≤ limits.components }
    ensures { Writes (no_slot_text s.now ids.now n slots.now) at room result }
{
    let Some(k) = first_without(s, ids, n, slots) else {
        return at;
    };
    let a = put_labelled(room, at, b"  component ", k);
    let b = put(room, a, b" has no slot: ");
    let c = put_identifier_at(room, b, s, ids[2 * k], ids[2 * k + 1]);
    put_byte(room, c, b'\n')
}

// What the refusal of a run of s is about, whose device had the number `device`.
#[tactic(auto, using(text::proofs::TextLaws::wrote_none), unfolding(crate::specs::Reasons::reason_text))]
pub fn put_reason(
    room: &mut [u8],
    at: usize,
    refusal: usize,
    subject: Subject,
    device: usize,
    s: &[u8],
    slots: &[u8],
) -> usize
    ensures { Writes (reason_text refusal subject device s.now slots.now) at room result }
{
    match refusal {
        Refusal::WRONG_NUMBER => put_numbers(room, at, subject.boot, subject.number, device),
        Refusal::NO_SLOT => {
            let n = least(subject.components, Controller::COMPONENTS);
            put_no_slot(room, at, s, &subject.ids, n, slots)
        }
        Refusal::BAD_SLOTS => put_bad_slots(room, at, slots),
        _ => at,
    }
}
