// The program test.
#![tactic(auto)]

pub mod test;
