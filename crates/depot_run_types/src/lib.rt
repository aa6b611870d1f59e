// What a run is asked for, and what it is about: the types alone, so that a report needs no job.
#![tactic(auto)]

use rules::controller::Places;

// What is run. A program has its group in itself.
#[derive(Clone, Copy)]
pub enum Run {
    Install,
    Boot,
    Program,
}

// What a run is about, read from the envelope or program: the group, the number, and the places of the components' identifiers.
#[derive(Clone, Copy)]
pub struct Subject {
    pub boot: bool,
    pub number: usize,
    pub components: usize,
    pub ids: Places,
}
