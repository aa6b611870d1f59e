// Files and streams for the depot tool, and messages about them. What is read and written no contract can say.
#![tactic(auto)]

pub mod files;
pub mod streams;
