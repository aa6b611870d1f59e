// Why the image matches of a run failed, worked out from the program, the trace, the slots before the run and the host's answers.
#![tactic(auto)]

ghost use Rattle.std.specs.Prelude.{◌≡◌, [], ◌∷◌, ◌+◌, ◌*◌, ◌≤◌, length};
ghost use Rattle.std.proofs.lemmas.List.Edits.{sets};
ghost use Rattle.rules.specs.Step.{event_bytes};
ghost use Rattle.text.specs.Text.{Writes};
ghost use Rattle.text_pieces.specs.Pieces.{lines};
ghost use Rattle.depot_events.specs.Notes.{note_byte};
ghost use Rattle.depot_matches.specs.Matches.{note_of_image, note_of, notes_of};

mod events;
mod images;
mod values;

use byte_buffer::is;
use depot_events::notes::{NO_NOTE, Note};
use events::{event_at, is_of};
use images::{ImageOrigin, answer_image, lent_image, origin};
use rules::answers::End;
use rules::codes;
use rules::event_format::EVENT_BYTES;
use rules::slot_format::{DIGEST, IMAGE_BYTES};
use text::{least, put_byte};
use values::value_before;

// Why an image that is there, or none, did not match.
#[tactic(auto, unfolding(crate::specs::Matches::note_of_image))]
fn note_of_image(image: &[u8], digest: &[u8]) -> Note
    ensures { result ≡ note_of_image image.now digest.now }
{
    if image.len() < IMAGE_BYTES {
        return Note::SlotAbsent;
    }
    if is(&image[DIGEST..], digest) {
        return Note::OtherSize;
    }
    Note::OtherDigest
}

#[tactic(auto, unfolding(crate::specs::Matches::note_of, crate::specs::Matches::image_from))]
fn note_of(p: &[u8], trace: &[u8], slots: &[u8], answers: &[u8], j: usize) -> Option<Note>
    requires { event_bytes * j + event_bytes ≤ length trace.now }
    ensures { result ≡ note_of p.now trace.now slots.now answers.now j }
{
    let e = event_at(trace, j);
    if !is_of(e, codes::IMAGE_MATCH, End::CONDITION_FAILED) {
        return None;
    }
    let digest = value_before(p, trace, codes::DIGEST, e.component, j);
    let image = match origin(p, trace, e.component, j) {
        ImageOrigin::Slot(c) => lent_image(p, slots, c),
        ImageOrigin::Answer(k) => answer_image(answers, k),
    };
    Some(note_of_image(image, digest))
}

fn byte_of(note: Option<Note>) -> u8
    ensures { result ≡ note_byte note }
{
    note.map_or(NO_NOTE, u8::from)
}

fn put_notes(
    notes: &mut [u8],
    p: &[u8],
    trace: &[u8],
    n: usize,
    slots: &[u8],
    answers: &[u8],
) -> usize
    requires { event_bytes * n ≤ length trace.now }
    ensures { Writes (lines (λ j. note_byte (note_of p.now trace.now slots.now answers.now j) ∷ []) n) 0 notes result }
{
    let mut to = 0;
    for j in 0..n {
        to = put_byte(notes, to, byte_of(note_of(p, trace, slots, answers, j)));
    }
    to
}

// The notes of the first events, as many of them as lie in the trace, as far as the room goes.
#[tactic(auto, unfolding(crate::specs::Matches::notes_of))]
pub fn note_matches(
    p: &[u8],
    trace: &[u8],
    events: usize,
    slots: &[u8],
    answers: &[u8],
    notes: &mut [u8],
)
    ensures { notes.new ≡ sets notes.old 0 (notes_of p.now trace.now events slots.now answers.now) }
{
    let n = least(events, trace.len() / EVENT_BYTES);
    put_notes(notes, p, trace, n, slots, answers);
}
