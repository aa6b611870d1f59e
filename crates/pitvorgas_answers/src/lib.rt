// The device and the answers as C has them, and what C's device and group are to the jobs. include/pitvorgas.h declares the structs by
// the same names, with `pitvorgas_` before them: `CheckAnswer` is `struct pitvorgas_check_answer`.
#![tactic(auto)]

ghost use Rattle.std.specs.Prelude.{◌≡◌};
ghost use Rattle.pitvorgas_answers.specs.Inputs.{controller_of, group_of};

use rules::answers::Group;
use rules::controller::{Controller, Places, SectionPlaces, Sixteen};

// The device.
#[repr(C)]
#[derive(Clone, Copy)]
pub struct Device {
    pub vendor: Sixteen,
    pub class_id: Sixteen,
    // the sequence number of the manifest that was installed last
    pub number: usize,
    // an event is open
    pub event: bool,
}

// What check answers: a refusal and its place, and 0 in all else; or 0 and 0, and where what it read stands.
#[repr(C)]
#[derive(Clone, Copy)]
pub struct CheckAnswer {
    pub refusal: usize,
    pub place: usize,
    pub number: usize,
    pub components: usize,
    pub ids: Places,
    pub sections: SectionPlaces,
    // the manifest's first byte, and the one after its last
    pub from: usize,
    pub to: usize,
}

// Where the newer manifest stands: in the first envelope where `second` is 0, and else in the second.
#[repr(C)]
#[derive(Clone, Copy)]
pub struct NewerAnswer {
    pub second: usize,
    pub from: usize,
    pub to: usize,
}

// A refusal and its place, and 0; or 0 and 0, and how long the program is.
#[repr(C)]
#[derive(Clone, Copy)]
pub struct TranslateAnswer {
    pub refusal: usize,
    pub place: usize,
    pub length: usize,
}

// A refusal and its place, and 0 in all else but the number; or 0, and the end with its place. The number is the device's after the run.
#[repr(C)]
#[derive(Clone, Copy)]
pub struct RunAnswer {
    pub refusal: usize,
    pub place: usize,
    pub end: usize,
    pub events: usize,
    pub used: usize,
    pub number: usize,
}

pub fn controller_of(d: Device) -> Controller
    ensures { result ≡ controller_of d }
{
    let vendor = d.vendor;
    let class = d.class_id;
    Controller {
        vendor,
        class,
        number: d.number,
        event: d.event,
    }
}

pub fn group_of(boot: bool) -> Group
    ensures { result ≡ group_of boot }
{
    if boot {
        return Group::Boot;
    }
    Group::Install
}
