// Slots and parameters in lent memory.
#![tactic(auto)]

pub mod image;
pub mod params;
pub mod slot;
