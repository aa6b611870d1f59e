// The tests of a run, in the order of the table of refusals.
#![tactic(auto)]

ghost use Rattle.std.specs.Prelude.{◌≡◌};
ghost use Rattle.rules.specs.Run as Rule;
ghost use Rattle.run_admission.specs.Admission.{Requested, Admits};

use rules::answers::{Group, Refusal};
use rules::controller::{Controller, Memory, Places};
use rules::slot_format::IMAGE_BYTES;
use run_slot_search::search::find_slots;
use run_slot_search::whole::good_slots;

// 81: no install while an event is open.
fn may_start(group: Group, device: Controller) -> bool
    ensures { result ≡ Rule.may_start group device }
{
    match group {
        Group::Install => !device.event,
        Group::Boot => true,
    }
}

// 82: an install needs a number above the device's, a boot that number.
fn number_fits(group: Group, number: usize, device: Controller) -> bool
    ensures { result ≡ Rule.number_fits group number device }
{
    let held = device.number;
    match group {
        Group::Install => held < number,
        Group::Boot => number == held,
    }
}

// What a run asks for: the group, the sequence number and the components of what is run, and whether its signature was verified.
#[derive(Clone, Copy)]
pub struct Request {
    pub group: Group,
    pub number: usize,
    pub components: usize,
    pub verdict: bool,
}

// Admits a run: then the memory has the slots of the components, whose identifiers stand at the places `ids` of s.
pub fn admit(
    s: &[u8],
    request: Request,
    ids: &Places,
    device: Controller,
    slots: &[u8],
    answers: &[u8],
    trace: &[u8],
    memory: &mut Memory,
) -> Result<(), Refusal>
    requires { Requested s.now request ids.now }
    ensures { Admits s.now request ids.now device slots.now answers.now trace.now memory result }
{
    if !request.verdict {
        return Err(Refusal::NotVerified);
    }
    if !may_start(request.group, device) {
        return Err(Refusal::EventOpen);
    }
    if !number_fits(request.group, request.number, device) {
        return Err(Refusal::WrongNumber);
    }
    if !good_slots(slots) {
        return Err(Refusal::BadSlots);
    }
    if !find_slots(s, ids, request.components, slots, memory) {
        return Err(Refusal::NoSlot);
    }
    if answers.len() % IMAGE_BYTES != 0 {
        return Err(Refusal::BadAnswers);
    }
    if trace.len() < Controller::TRACE_BYTES {
        return Err(Refusal::ShortTrace);
    }
    Ok(())
}
