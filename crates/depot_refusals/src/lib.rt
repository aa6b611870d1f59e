// A refusal as text in lent room: its number, place and meaning, the path to the place, and the bytes around it.
#![tactic(auto)]

ghost use Rattle.text.specs.Text.{Writes};
ghost use Rattle.depot_refusals.specs.Refusals.{refused_line, path_line, refused_text};

use depot_around::put_around;
use depot_path::put_path;
use rules::answers::Refusal;
use text::{put, put_byte};
use text_names::put_refusal;
use text_pieces::put_labelled;

fn put_refused_line(room: &mut [u8], at: usize, number: usize, place: usize) -> usize
    ensures { Writes (refused_line number place) at room result }
{
    let a = put_labelled(room, at, b"refused with ", number);
    let b = put_labelled(room, a, b" at ", place);
    let c = put(room, b, b": ");
    let d = put_refusal(room, c, number);
    put_byte(room, d, b'\n')
}

// The path to a place of the bytes.
fn put_path_line(room: &mut [u8], at: usize, s: &[u8], p: usize) -> usize
    ensures { Writes (path_line s.now p) at room result }
{
    let a = put(room, at, b"  in ");
    let b = put_path(room, a, s, p);
    put_byte(room, b, b'\n')
}

pub fn put_refused(room: &mut [u8], at: usize, number: usize, place: usize, s: &[u8]) -> usize
    ensures { Writes (refused_text number place s.now) at room result }
{
    let to = put_refused_line(room, at, number, place);
    if Refusal::NOT_CBOR <= number && number < Refusal::NOT_VERIFIED {
        let a = put_path_line(room, to, s, place);
        return put_around(room, a, s, place);
    }
    to
}
