// What the command of a record in a program does, by its code: each arm reads its own argument and steps over it.
#![tactic(auto)]

ghost use Rattle.std.specs.Prelude.{◌≡◌};
ghost use Rattle.program_commands.specs.Act.{ActJob, ActsOn};

use byte_buffer::two;
use program_parameters::take_params;
use rules::answers::{End, Failure};
use rules::codes;
use rules::controller::{Controller, Memory, Sixteen};
use rules::program_format::{ARGUMENT_LENGTH, RECORD_BYTES};
use run_actions::conditions::{equal_sixteen, matches, runs};
use run_copies::{copy, swap};
use run_fetch::fetch;
use run_slots::params::{load, over, store};

// The bytes of a vendor or a class.
const SIXTEEN: usize = Controller::CLASS_BYTES;

// The record of a command: its code and component, where it is, and the answers used before it.
#[derive(Clone, Copy)]
pub struct CommandRecord {
    pub code: usize,
    pub index: usize,
    pub at: usize,
    pub used: usize,
}

// What it leaves beside its event: where the next record is, answers used, and the number of its end.
#[derive(Clone, Copy)]
pub struct RecordEffect {
    pub next: usize,
    pub used: usize,
    pub end: usize,
}

fn effect_at(next: usize, end: usize, used: usize) -> RecordEffect
    ensures { result ≡ record { next = next; used = used; end = end } }
{
    RecordEffect { next, used, end }
}

// The command at x, its event aside.
pub fn act(
    p: &[u8],
    x: CommandRecord,
    vendor: &Sixteen,
    class: &Sixteen,
    answers: &[u8],
    slots: &mut [u8],
    memory: &mut Memory,
) -> RecordEffect
    requires { ActJob p.now x answers.now slots.old memory.old }
    ensures { ActsOn p.now x vendor.now class.now answers.now slots memory result }
{
    let i = x.index;
    let k = memory[i];
    let used = x.used;
    let from = x.at + RECORD_BYTES;
    let code = x.code;
    match code {
        codes::VENDOR => effect_at(from + SIXTEEN, equal_sixteen(p, from, vendor), used),
        codes::CLASS => effect_at(from + SIXTEEN, equal_sixteen(p, from, class), used),
        codes::IMAGE_MATCH => effect_at(from, matches(p, load(memory, i), slots, k), used),
        codes::SET_INDEX => effect_at(from, End::FINISHED, used),
        codes::ABORT => effect_at(from, Failure::ABORTED, used),
        codes::SET_PARAMETERS => {
            let to = from + two(p, x.at + ARGUMENT_LENGTH);
            let old = load(memory, i);
            store(memory, i, over(old, take_params(p, from, to)));
            effect_at(to, End::FINISHED, used)
        }
        codes::OVERRIDE_PARAMETERS => {
            let to = from + two(p, x.at + ARGUMENT_LENGTH);
            let old = load(memory, i);
            store(memory, i, over(take_params(p, from, to), old));
            effect_at(to, End::FINISHED, used)
        }
        codes::FETCH => {
            let e = fetch(load(memory, i), answers, used, slots, k);
            effect_at(from, e.end, e.used)
        }
        codes::COPY => effect_at(from, copy(load(memory, i), memory, slots, k), used),
        codes::RUN => effect_at(from, runs(slots, k), used),
        _ => effect_at(from, swap(load(memory, i), memory, slots, k), used),
    }
}
