// The start of a program, and the records of its components' identifiers.
#![tactic(auto)]

pub mod names;
pub mod start;
