// What is read of an envelope that check has accepted: nothing is tested again.
#![tactic(auto)]

pub mod arguments;
pub mod heads;
