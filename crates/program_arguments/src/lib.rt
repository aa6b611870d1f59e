// What a record of a command may hold.
#![tactic(auto)]

ghost use Rattle.std.specs.Prelude.{◌≡◌, ℕ, ◌-◌, ◌≤◌, ◌<◌, length};
ghost use Rattle.rules.specs.Bytes.{part};
ghost use Rattle.rules.specs.Commands.{Form};
ghost use Rattle.rules.specs.Tables.{kind_of, argument_number};
ghost use Rattle.rules.specs.ProgramTest as Rule;
ghost use Rattle.rules.specs.Got.{accepted};
ghost use Rattle.program_arguments.specs.Arguments.{allows_in, target_fits};

use program_parameters::params_fit;
use rules::answers::Group;
use rules::controller::Controller;
use rules::program_format::NO_TARGET;
use rules_tables::{COMMON, INSTALL, LOAD, PAYLOAD_FETCH, RUN, VALIDATE, kinds};

// The sections of each group, as a set.
const INSTALL_SECTIONS: u8 = COMMON + PAYLOAD_FETCH + INSTALL;

const BOOT_SECTIONS: u8 = COMMON + VALIDATE + LOAD + RUN;

// Whether the bytes from `from` to `to` are an argument of the kind with that number, for n components.
pub fn argument_fits(p: &[u8], kind: u16, from: usize, to: usize, n: usize) -> bool
    requires { (from ≤ to) × (to ≤ length p.now) }
    ensures { (form : Form) (i : ℕ) → argument_number (kind_of form) ≡ kind → result ≡ accepted (Rule.op_in n i form (part p.now from (to - from))) }
{
    match kind {
        kinds::SIXTEEN => to - from == Controller::CLASS_BYTES,
        kinds::NIL | kinds::INDEX => to == from,
        kinds::PARAMETERS => params_fit(p, from, to, n),
        _ => false,
    }
}

// Whether a command that is allowed in the set of sections may stand in a program of the group.
pub fn allows(sections: u8, group: Group) -> bool
    ensures { result ≡ allows_in group sections }
{
    match group {
        Group::Install => sections & INSTALL_SECTIONS != 0,
        Group::Boot => sections & BOOT_SECTIONS != 0,
    }
}

// Whether record n of `total`, which is a condition or not, may have the target.
pub fn target_fits(condition: bool, target: usize, n: usize, total: usize) -> bool
    ensures { result ≡ target_fits condition target n total }
{
    target == NO_TARGET || condition && target > n && target <= total
}
