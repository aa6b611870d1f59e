// What every job shares: the controller and its limits, and the types that answers and tables are made of. The rules themselves
// are in specs/, and the cases of the bench sheet in proofs/.
#![tactic(auto)]

pub mod answers;
pub mod codes;
pub mod controller;
pub mod event_format;
pub mod program_format;
pub mod slot_format;
pub mod tables;
