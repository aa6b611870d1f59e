// A command whose argument was read: what it does, and its event.
#![tactic(auto)]

ghost use Rattle.run_commands.specs.Performed.{Commanded, RoomFor};
ghost use Rattle.run_perform.specs.Performs.{Performs};

use rules::controller::{Memory, Sixteen};
use run_actions::Progress;
use run_commands::act::{Command, act};
use run_commands::event::put_event;
use run_slots::params::Params;

pub fn perform(
    s: &[u8],
    command: Command,
    given: Params,
    vendor: &Sixteen,
    class: &Sixteen,
    answers: &[u8],
    slots: &mut [u8],
    memory: &mut Memory,
    trace: &mut [u8],
) -> Progress
    requires { Commanded s.now command given answers.now slots.old memory.old × RoomFor command.events trace.old }
    ensures { Performs s.now command given vendor.now class.now answers.now slots memory trace result }
{
    let d = act(s, command, given, vendor, class, answers, slots, memory);
    put_event(
        trace,
        command.events,
        command.code,
        command.index,
        command.place,
        d.end,
    );
    Progress {
        events: command.events + 1,
        used: d.used,
        end: d.end,
    }
}
