// The controller that a run is for, and the limits of document 01, each named here once.
ghost use Rattle.std.specs.Prelude.{◌≡◌};
ghost use Rattle.rules.specs.Limits.{limits};

// A device as a run sees it.
#[derive(Clone, Copy)]
pub struct Controller {
    pub vendor: Sixteen,
    pub class: Sixteen,
    // the sequence number of the manifest that was installed last
    pub number: usize,
    // an event is open, so nothing may be installed
    pub event: bool,
}

impl Controller {
    pub const ENVELOPE_BYTES: usize = 4096;

    pub const LARGEST_NUMBER: usize = 4294967295;

    pub const COMPONENTS: usize = 8;

    pub const IDENTIFIER_PARTS: usize = 4;

    pub const IDENTIFIER_BYTES: usize = 32;

    pub const SEQUENCE_COMMANDS: usize = 64;

    pub const DEPTH: usize = 4;

    pub const COMMANDS: usize = 256;

    pub const ALTERNATIVES: usize = 4;

    pub const PARAMETERS: usize = 5;

    pub const URI_BYTES: usize = 96;

    pub const DIGEST_BYTES: usize = 32;

    pub const CLASS_BYTES: usize = 16;

    pub const SLOTS: usize = 8;

    pub const TRACE_BYTES: usize = 2048;

    pub const RECORDS: usize = 1024;

    pub const PROGRAM_BYTES: usize = 49152;
}

// A vendor or a class.
pub type Sixteen = [u8; Controller::CLASS_BYTES];

// Where each identifier stands: its first byte, and the one after its last.
pub const PLACES: usize = 2 * Controller::COMPONENTS;

pub type Places = [usize; PLACES];

// Common's sequence and sections 8 to 12; where each stands, as identifiers.
pub const SECTIONS: usize = 6;

pub const SECTION_PLACES: usize = 2 * SECTIONS;

pub type SectionPlaces = [usize; SECTION_PLACES];

// Where the sequences that a group does start, as they follow each other: common before each of at most three sections.
pub const PLAN_SEQUENCES: usize = 6;

pub type PlanStarts = [usize; PLAN_SEQUENCES];

// The numbers that hold a component's parameters.
pub const PARAMETER_NUMBERS: usize = 5;

// What a run keeps of its components, as numbers: that of each one's slot, then the parameters of each.
pub const MEMORY_NUMBERS: usize = Controller::COMPONENTS
    + PARAMETER_NUMBERS * Controller::COMPONENTS;

pub type Memory = [usize; MEMORY_NUMBERS];

// The limits as a value, which ties the constants to the numbers of specs/Limits.
#[derive(Clone, Copy)]
pub struct Limits {
    pub envelope: usize,
    pub largest: usize,
    pub components: usize,
    pub parts: usize,
    pub identifier: usize,
    pub sequence: usize,
    pub depth: usize,
    pub commands: usize,
    pub alternatives: usize,
    pub parameters: usize,
    pub uri: usize,
    pub digest: usize,
    pub class: usize,
    pub slots: usize,
    pub trace: usize,
    pub records: usize,
    pub program: usize,
}

impl Controller {
    pub fn limits() -> Limits
        ensures { result ≡ limits }
    {
        Limits {
            envelope: Controller::ENVELOPE_BYTES,
            largest: Controller::LARGEST_NUMBER,
            components: Controller::COMPONENTS,
            parts: Controller::IDENTIFIER_PARTS,
            identifier: Controller::IDENTIFIER_BYTES,
            sequence: Controller::SEQUENCE_COMMANDS,
            depth: Controller::DEPTH,
            commands: Controller::COMMANDS,
            alternatives: Controller::ALTERNATIVES,
            parameters: Controller::PARAMETERS,
            uri: Controller::URI_BYTES,
            digest: Controller::DIGEST_BYTES,
            class: Controller::CLASS_BYTES,
            slots: Controller::SLOTS,
            trace: Controller::TRACE_BYTES,
            records: Controller::RECORDS,
            program: Controller::PROGRAM_BYTES,
        }
    }
}
