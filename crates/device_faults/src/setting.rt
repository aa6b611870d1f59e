// Why a line that is to set a value is refused, and one that begins with an unknown word.
ghost use Rattle.std.specs.Prelude.{◌≡◌, take};
ghost use Rattle.text.specs.Text.{Writes};
ghost use Rattle.device_faults.specs.Faults.{shown_bytes, unknown_text, sixteen_text, setting_fault};

use rules::controller::Controller;
use text::{put, put_quoted};
use text_pieces::put_labelled;

// How many bytes of an unknown word are shown.
const SHOWN_BYTES: usize = 32;

#[tactic(auto, using(std::proofs::lemmas::List::take_min))]
fn shown(w: &[u8]) -> &[u8]
    ensures { result.now ≡ take shown_bytes w.now }
{
    &w[..SHOWN_BYTES.min(w.len())]
}

fn put_unknown(room: &mut [u8], at: usize, w: &[u8]) -> usize
    ensures { Writes (unknown_text w.now) at room result }
{
    let a = put(room, at, b"no line begins with ");
    put_quoted(room, a, shown(w))
}

fn put_sixteen(room: &mut [u8], at: usize, w: &[u8]) -> usize
    ensures { Writes (sixteen_text w.now) at room result }
{
    let a = put(room, at, w);
    let b = put_labelled(room, a, b" is ", Controller::CLASS_BYTES);
    put(room, b, b" bytes in hexadecimal")
}

// The line begins with w.
#[tactic(auto, using(device_description::proofs::WordLaws::not_same), unfolding(crate::specs::Faults::setting_fault))]
pub(crate) fn put_setting_fault(room: &mut [u8], at: usize, w: &[u8]) -> usize
    ensures { Writes (setting_fault w.now) at room result }
{
    let Ok(word) = str::from_utf8(w) else {
        return put_unknown(room, at, w);
    };
    match word {
        "verdict" => put(room, at, b"verdict is good or bad"),
        "vendor" | "class" => put_sixteen(room, at, w),
        "number" => put_labelled(
            room,
            at,
            b"number is a decimal number up to ",
            Controller::LARGEST_NUMBER,
        ),
        "event" => put(room, at, b"event is open or closed"),
        _ => put_unknown(room, at, w),
    }
}
