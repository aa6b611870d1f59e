// What check hands back of an envelope that it accepts.
use rules::controller::{Places, SectionPlaces};

#[derive(Clone, Copy)]
pub struct Place {
    pub from: usize,
    pub to: usize,
}

// The places are those in the envelope: the first byte, and the one after the last.
#[derive(Clone, Copy)]
pub struct Report {
    pub number: usize,
    pub components: usize,
    // identifier k from ids[2k] to ids[2k + 1]
    pub ids: Places,
    pub manifest: Place,
    pub common: Place,
    // common's sequence and sections 8 to 12, in that order, as ids; 0 and 0 for one that is not there
    pub sections: SectionPlaces,
}
