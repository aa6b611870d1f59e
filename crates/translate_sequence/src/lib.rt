// The records of an accepted envelope's sequences, written to lent room.
#![tactic(auto)]

pub mod write;
