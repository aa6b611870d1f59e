// What each command that writes an event does: its result, the slots and parameters that it changes, and its event. Nothing here knows
// whether the command stands in an envelope or in a program.
#![tactic(auto)]

pub mod act;
pub mod event;
