// Slots and answers of a device as text has them: their lines, and their bytes.
#![tactic(auto)]

pub mod put;
pub mod shape;
