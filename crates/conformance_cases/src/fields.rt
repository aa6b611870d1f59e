// The fields of a case.
ghost use Rattle.std.specs.Prelude.{◌≡◌, ◌+◌, ◌≤◌, length};
ghost use Rattle.rules.specs.Bytes.{part};
ghost use Rattle.rules.specs.Limits.{limits};
ghost use Rattle.conformance_cases.specs.Fields.{StringAt, run_head, device_of};

use byte_buffer::{four, two};
use pitvorgas_answers::Device;
use rules::controller::{Controller, Sixteen};

// The head of a run: group 1, verdict 1, vendor 16, class 16, sequence number 4, event open 1, the trace's length 2, its bytes' value 1.
pub(crate) const GROUP: usize = 0;

pub(crate) const VERDICT: usize = 1;

const VENDOR: usize = 2;

const CLASS: usize = 18;

const NUMBER: usize = 34;

const OPEN: usize = 38;

pub(crate) const TRACE: usize = 39;

pub(crate) const FILL: usize = 41;

pub(crate) const RUN_HEAD: usize = 42;

// The end of the string at the start of b.
pub(crate) fn string_end(b: &[u8]) -> Option<usize>
    ensures { StringAt b.now result }
{
    if b.len() < 2 {
        return None;
    }
    let n = two(b, 0);
    if b.len() - 2 < n {
        return None;
    }
    Some(2 + n)
}

fn sixteen(b: &[u8], at: usize) -> Sixteen
    requires { at + limits.class ≤ length b.now }
    ensures { result ≡ part b.now at limits.class }
{
    let mut id = [0; Controller::CLASS_BYTES];
    id.copy_from_slice(&b[at..at + Controller::CLASS_BYTES]);
    id
}

// The device in the head of a run.
pub(crate) fn device_of(head: &[u8]) -> Device
    requires { length head.now ≡ run_head }
    ensures { result ≡ device_of head.now }
{
    let vendor = sixteen(head, VENDOR);
    let class = sixteen(head, CLASS);
    Device {
        vendor,
        class_id: class,
        number: four(head, NUMBER),
        event: head[OPEN] != 0,
    }
}
