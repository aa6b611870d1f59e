// What a note says of an event: nothing, or why an image match failed.
ghost use Rattle.std.specs.Prelude.{◌≡◌};
ghost use Rattle.depot_events.specs.Notes.{note_number, note_of_byte};

// The byte of an event with no note.
pub const NO_NOTE: u8 = 0;

pub const SLOT_ABSENT: u8 = 1;

pub const OTHER_DIGEST: u8 = 2;

pub const OTHER_SIZE: u8 = 3;

// Why an image match failed.
#[derive(Clone, Copy)]
pub enum Note {
    SlotAbsent,
    OtherDigest,
    OtherSize,
}

impl From<Note> for u8 {
    ghost from_gives = { λ note byte. byte ≡ note_number note };

    fn from(note: Note) -> u8 {
        match note {
            Note::SlotAbsent => SLOT_ABSENT,
            Note::OtherDigest => OTHER_DIGEST,
            Note::OtherSize => OTHER_SIZE,
        }
    }
}

impl Note {
    // The note of a byte, none if it is that of no note or of nothing.
    pub(crate) fn of_byte(byte: u8) -> Option<Note>
        ensures { result ≡ note_of_byte byte }
    {
        match byte {
            SLOT_ABSENT => Some(Note::SlotAbsent),
            OTHER_DIGEST => Some(Note::OtherDigest),
            OTHER_SIZE => Some(Note::OtherSize),
            _ => None,
        }
    }
}
