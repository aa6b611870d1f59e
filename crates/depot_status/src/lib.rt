// The status of a command of the depot tool.
#![tactic(auto)]

ghost use Rattle.std.specs.Prelude.{◌≡◌};
ghost use Rattle.depot_status.specs.Status.{refusal_status, run_status};

use rules::answers::End;

// Done; refused, or a run that did not end well; a fault of usage, or of a file. Numbers: `depot_files::streams::print` and
// `store` take any status, and no parameter gets narrower.
pub const DONE: usize = 0;

pub const REFUSED: usize = 1;

pub const FAULT: usize = 2;

#[tactic(auto, unfolding(crate::specs::Status::refusal_status))]
pub fn refusal_status(refusal: usize) -> usize
    ensures { result ≡ refusal_status refusal }
{
    match refusal {
        0 => DONE,
        _ => REFUSED,
    }
}

// A run ends well that finished or started.
#[tactic(auto, unfolding(crate::specs::Status::run_status))]
pub fn run_status(refusal: usize, end: usize) -> usize
    ensures { result ≡ run_status refusal end }
{
    match end {
        End::FINISHED | End::STARTED => refusal_status(refusal),
        _ => REFUSED,
    }
}
