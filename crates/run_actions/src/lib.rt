// How far a run is, what a command leaves, and the conditions, their events aside.
#![tactic(auto)]

ghost use Rattle.std.specs.Prelude.{◌≡◌};

pub mod conditions;

// How far a run is: events written, answers used, and the number of the end of what was done last, 0 to go on.
#[derive(Clone, Copy)]
pub struct Progress {
    pub events: usize,
    pub used: usize,
    pub end: usize,
}

// What a command leaves beside its event: answers used, and the number of its end.
#[derive(Clone, Copy)]
pub struct Effect {
    pub used: usize,
    pub end: usize,
}

pub fn ended(end: usize, events: usize, used: usize) -> Progress
    ensures { result ≡ record { events = events; used = used; end = end } }
{
    Progress { events, used, end }
}

pub fn effect_of(end: usize, used: usize) -> Effect
    ensures { result ≡ record { used = used; end = end } }
{
    Effect { used, end }
}
