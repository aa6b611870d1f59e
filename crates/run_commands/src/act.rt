// A command whose argument was read: what it does, its event aside.
ghost use Rattle.run_commands.specs.Performed.{Commanded, Acted};

use rules::answers::{End, Failure};
use rules::codes::{
    ABORT, CLASS, COPY, FETCH, IMAGE_MATCH, OVERRIDE_PARAMETERS, RUN, SET_INDEX, SET_PARAMETERS,
    VENDOR,
};
use rules::controller::{Memory, Sixteen};
use run_actions::conditions::{equal_sixteen, matches, runs};
use run_actions::{Effect, effect_of};
use run_copies::{copy, swap};
use run_fetch::fetch;
use run_slots::params::{Params, load, over, store};

// A command: its code, what it has beside its parameters, the component that it is done at, and the place of its code; the events written
// and the answers used before it.
#[derive(Clone, Copy)]
pub struct Command {
    pub code: usize,
    pub value: usize,
    pub index: usize,
    pub place: usize,
    pub events: usize,
    pub used: usize,
}

// The command, which gives those parameters.
pub fn act(
    s: &[u8],
    command: Command,
    given: Params,
    vendor: &Sixteen,
    class: &Sixteen,
    answers: &[u8],
    slots: &mut [u8],
    memory: &mut Memory,
) -> Effect
    requires { Commanded s.now command given answers.now slots.old memory.old }
    ensures { Acted s.now command given vendor.now class.now answers.now slots memory result }
{
    let i = command.index;
    let k = memory[i];
    let value = command.value;
    let used = command.used;
    let code = command.code;
    match code {
        VENDOR => effect_of(equal_sixteen(s, value, vendor), used),
        CLASS => effect_of(equal_sixteen(s, value, class), used),
        IMAGE_MATCH => effect_of(matches(s, load(memory, i), slots, k), used),
        SET_INDEX => effect_of(End::FINISHED, used),
        ABORT => effect_of(Failure::ABORTED, used),
        SET_PARAMETERS => {
            let p = load(memory, i);
            store(memory, i, over(p, given));
            effect_of(End::FINISHED, used)
        }
        OVERRIDE_PARAMETERS => {
            let p = load(memory, i);
            store(memory, i, over(given, p));
            effect_of(End::FINISHED, used)
        }
        FETCH => fetch(load(memory, i), answers, used, slots, k),
        COPY => effect_of(copy(load(memory, i), memory, slots, k), used),
        RUN => effect_of(runs(slots, k), used),
        _ => effect_of(swap(load(memory, i), memory, slots, k), used),
    }
}
