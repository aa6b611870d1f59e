// What a reader of check answers, and the readers of items.
#![tactic(auto)]

ghost use Rattle.std.specs.Prelude.{◌≡◌, ◌≤◌, length};
ghost use Rattle.rules.specs.Cbor as Cbor;
ghost use Rattle.cbor_reading.specs.Reading.{fault, head_reading};

use byte_buffer::wide;
use cbor::{NIL, read_item, read_one_of};
use cbor_short::{is_short, number_fits};
use rules::answers::{Fault, Refusal};

// What was read ends before `at`, and `value` is its number or count.
#[derive(Clone, Copy)]
pub struct Reading {
    pub at: usize,
    pub value: usize,
}

pub fn refuse<T>(refusal: Refusal, at: usize) -> Result<T, Fault>
    ensures { result ≡ fault refusal at }
{
    Err(Fault { refusal, at })
}

// The head of an item of a wanted kind and range, of any width.
fn any_item(
    s: &[u8],
    end: usize,
    at: usize,
    kind: usize,
    lo: usize,
    hi: usize,
) -> Result<Reading, Fault>
    requires { end ≤ length s.now }
    ensures { result ≡ head_reading (Cbor.item kind lo hi s.now end at) }
{
    let h = read_item(s, end, at, kind, lo, hi)?;
    Ok(Reading {
        at: h.next,
        value: h.num,
    })
}

// The head of an item of a wanted kind and range: the place after the head, and its number. Most heads have one byte: these come first.
pub fn item(
    s: &[u8],
    end: usize,
    at: usize,
    kind: usize,
    lo: usize,
    hi: usize,
) -> Result<Reading, Fault>
    requires { end ≤ length s.now }
    ensures { result ≡ head_reading (Cbor.item kind lo hi s.now end at) }
{
    if at < end {
        let first = wide(s[at]);
        let next = at + 1;
        let value = first % 32;
        if is_short(kind, first) && number_fits(kind, value, end - next, lo, hi) {
            return Ok(Reading { at: next, value });
        }
    }
    any_item(s, end, at, kind, lo, hi)
}

// The head of nil.
pub fn nil(s: &[u8], end: usize, at: usize) -> Result<Reading, Fault>
    requires { end ≤ length s.now }
    ensures { result ≡ head_reading (Cbor.item Cbor.NIL 0 0 s.now end at) }
{
    if at < end && s[at] == 0xf6 {
        return Ok(Reading {
            at: at + 1,
            value: 0,
        });
    }
    any_item(s, end, at, NIL, 0, 0)
}

// The head of an item of either kind.
pub fn one_of(s: &[u8], end: usize, at: usize, kind: usize, other: usize) -> Result<Reading, Fault>
    requires { end ≤ length s.now }
    ensures { result ≡ head_reading (Cbor.one_of kind other s.now end at) }
{
    let h = read_one_of(s, end, at, kind, other)?;
    Ok(Reading {
        at: h.next,
        value: h.num,
    })
}
