// The way through a program's records, which only goes forward.
#![tactic(auto)]

ghost use Rattle.program_jump.specs.Jump.{AdvanceJob, Advanced, JumpJob, Jumped};

use byte_buffer::two;
use rules::program_format::{ARGUMENT_LENGTH, RECORD_BYTES, TARGET};

// A record: where it is, and its number.
#[derive(Clone, Copy)]
pub struct RecordPlace {
    pub at: usize,
    pub n: usize,
}

// Where record t is, from record n at `at`.
pub fn advance(p: &[u8], at: usize, n: usize, t: usize) -> usize
    requires { AdvanceJob p.now at n t }
    ensures { (j : AdvanceJob p.now at n t) → Advanced p.now j.group j.components j.total n at j.place t result }
{
    let mut next = at;
    for _ in n..t {
        next += RECORD_BYTES + two(p, next + ARGUMENT_LENGTH);
    }
    next
}

// Where the jump at `at`, which is record n, leads.
pub fn jump(p: &[u8], at: usize, n: usize) -> RecordPlace
    requires { JumpJob p.now at n }
    ensures { (j : JumpJob p.now at n) → Jumped p.now at n j result }
{
    let target = two(p, at + TARGET);
    RecordPlace {
        at: advance(p, at + RECORD_BYTES, n + 1, target),
        n: target,
    }
}
