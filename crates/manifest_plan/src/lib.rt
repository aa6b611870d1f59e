// The plan of a group: the sequences that it does, by where they start.
#![tactic(auto)]

ghost use Rattle.std.specs.Prelude.{◌≡◌, ◌+◌, ◌≤◌, ◌<◌, false, cond, eqb, length};
ghost use Rattle.rules.specs.Commands.{among, section_key};
ghost use Rattle.rules.specs.Limits.{section_count, plan_sequences};
ghost use Rattle.rules.specs.Run.{sections_of};
ghost use Rattle.manifest_plan.specs.Plan.{start_at, turn, starts_of, Puts};

use rules::answers::Group;
use rules::codes::{PAYLOAD_FETCH, VALIDATE};
use rules::controller::{PlanStarts, SECTIONS, SectionPlaces};

// The numbers of the sections: common's sequence 0, then the others as their keys ascend. A boot begins with validate.
const COMMON: usize = 0;

const FIRST_OF_BOOT: usize = VALIDATE - PAYLOAD_FETCH + 1;

// Whether the group does the section of number k, which ends at `to`; 0 is the end of none.
fn wanted(group: Group, k: usize, to: usize) -> bool
    requires { (0 < k) × (k < section_count) }
    ensures { result ≡ cond (eqb to 0) false (among (section_key k) (sections_of group)) }
{
    if to == 0 {
        return false;
    }
    match group {
        Group::Install => k < FIRST_OF_BOOT,
        Group::Boot => FIRST_OF_BOOT <= k,
    }
}

// Puts the start of section k at n, if the section is there: how many starts there are then.
fn put_start(sections: &SectionPlaces, k: usize, n: usize, starts: &mut PlanStarts) -> usize
    requires { (k < section_count) × (n < plan_sequences) }
    ensures { Puts (start_at sections.now k) n starts result }
{
    if sections[2 * k + 1] == 0 {
        return n;
    }
    starts[n] = sections[2 * k];
    n + 1
}

// Puts what section k adds to the plan: common and itself, if the group does it.
fn put_section(
    group: Group,
    sections: &SectionPlaces,
    k: usize,
    n: usize,
    starts: &mut PlanStarts,
) -> usize
    requires { (0 < k) × (k < section_count) × (n + length (turn group sections.now k) ≤ plan_sequences) }
    ensures { Puts (turn group sections.now k) n starts result }
{
    if !wanted(group, k, sections[2 * k + 1]) {
        return n;
    }
    let common = put_start(sections, COMMON, n, starts);
    put_start(sections, k, common, starts)
}

// Puts the starts of the group's sequences, by the places that check reported: how many they are. Common is before each section that is
// there, or alone where the group has none.
pub fn plan(group: Group, sections: &SectionPlaces, starts: &mut PlanStarts) -> usize
    ensures { Puts (starts_of group sections.now) 0 starts result }
{
    let mut n = 0;
    for k in 1..SECTIONS {
        n = put_section(group, sections, k, n, starts);
    }
    if n == 0 {
        return put_start(sections, COMMON, 0, starts);
    }
    n
}
