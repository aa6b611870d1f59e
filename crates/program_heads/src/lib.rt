// The head of a record in a program: where the record ends, and whether it is a jump that is well formed.
#![tactic(auto)]

ghost use Rattle.std.specs.Prelude.{◌≡◌, ◌+◌, ◌≤◌, length};
ghost use Rattle.rules.specs.ProgramFormat.{record_size};
ghost use Rattle.program_heads.specs.Heads.{record_end, jump_fits};

use byte_buffer::{two, wide};
use rules::program_format::{
    ARGUMENT_LENGTH, CODE, COMPONENT, JUMP, MARK, MARK_2, PLACE, RECORD_BYTES, TARGET,
};

// The place after the record at `at`; none if its bytes do not lie in p or its mark is not there.
#[tactic(auto, unfolding(crate::specs::Heads::record_end))]
pub fn record_end(p: &[u8], at: usize) -> Option<usize>
    requires { at ≤ length p.now }
    ensures { result ≡ record_end p.now at }
{
    let from = at + RECORD_BYTES;
    if p.len() < from || p[at] != MARK || p[at + 1] != MARK_2 {
        return None;
    }
    let next = from + two(p, at + ARGUMENT_LENGTH);
    (next <= p.len()).then_some(next)
}

// Whether record n of `total`, from `at` to `next`, is a jump that is well formed.
pub fn jump_fits(p: &[u8], at: usize, next: usize, total: usize, n: usize) -> bool
    requires { at + record_size ≤ length p.now }
    ensures { result ≡ jump_fits p.now at next total n }
{
    let target = two(p, at + TARGET);
    wide(p[at + CODE]) == JUMP
        && p[at + COMPONENT] == 0
        && two(p, at + PLACE) == 0
        && next == at + RECORD_BYTES
        && target > n
        && target <= total
}
