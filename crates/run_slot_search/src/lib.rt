// Slots by the identifiers of components, and all slots of a run.
#![tactic(auto)]

pub mod search;
pub mod whole;
