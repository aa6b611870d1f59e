// The parts of an envelope, and which entry of a part holds a place.
#![tactic(auto)]

pub mod parts;
pub mod seek;
