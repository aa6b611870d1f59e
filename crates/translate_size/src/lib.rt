// The sizes of the records of an accepted envelope's sequences.
#![tactic(auto)]

pub mod sizes;
