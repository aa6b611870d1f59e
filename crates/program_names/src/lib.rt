// The identifiers of a program's components.
#![tactic(auto)]

ghost use Rattle.std.specs.Prelude.{◌≡◌, ◌≤◌, length, drop, replicate};
ghost use Rattle.rules.specs.Limits.{limits, places};
ghost use Rattle.rules.specs.ProgramTest as Rule;
ghost use Rattle.program_parameters.specs.Entries.{next_in};
ghost use Rattle.program_names.specs.Names.{name_end, NamesAre};

use byte_buffer::wide;
use rules::controller::{Controller, Places};
use rules::program_format::{CODE, MARK, MARK_2, NAME, NAME_BYTES, NAME_LENGTH};

const NAME_CODE: u8 = NAME as u8;

// The place after the identifier at `at`; none if it is not well formed.
fn test_name(p: &[u8], at: usize) -> Option<usize>
    requires { at ≤ length p.now }
    ensures { result ≡ name_end p.now at }
{
    let left = p.len() - at;
    if left < NAME_BYTES || p[at] != MARK || p[at + 1] != MARK_2 || p[at + CODE] != NAME_CODE {
        return None;
    }
    let size = wide(p[at + NAME_LENGTH]);
    if size < 1 || Controller::IDENTIFIER_BYTES < size || left - NAME_BYTES < size {
        return None;
    }
    Some(at + NAME_BYTES + size)
}

// The place after the n identifiers from `at` on, none if one is not well formed; and their places.
pub fn test_names(p: &[u8], at: usize, n: usize, ids: &mut Places) -> Option<usize>
    requires { (at ≤ length p.now) × (n ≤ limits.components) × (ids.old ≡ replicate places 0) }
    ensures { (result ≡ next_in (length p.now) (Rule.ids_in n (drop at p.now))) × NamesAre p.now at n (Rule.ids_in n (drop at p.now)) ids.new }
{
    let mut next = at;
    for k in 0..n {
        let from = next;
        next = test_name(p, from)?;
        ids[2 * k] = from + NAME_BYTES;
        ids[2 * k + 1] = next;
    }
    Some(next)
}
