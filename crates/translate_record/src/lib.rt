// A record of a program, written to lent room.
#![tactic(auto)]

pub mod record;
