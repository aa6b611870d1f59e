// Items of CBOR, as a manifest may use it: a head whose content lies in its container.
#![tactic(auto)]

ghost use Rattle.std.specs.Prelude.{◌≡◌, ℕ, ◌+◌, ◌≤◌, length};
ghost use Rattle.rules.specs.Cbor.{whole, item, one_of, after};
ghost use Rattle.cbor_heads.specs.Answer.{head_means};

use cbor_heads::{Head, read_head};
use rules::answers::{Fault, Refusal};

// Kinds of items: those of their heads.
pub use cbor_heads::{ARRAY, BYTES, FALSE, MAP, NIL, NUMBER, TEXT, TRUE};

// How many bytes follow a head of that kind and number as its content.
pub fn content(kind: usize, num: usize) -> usize
    ensures { (next : ℕ) → after (record { kind = kind; num = num; next = next }) ≡ next + result }
{
    match kind {
        BYTES | TEXT => num,
        _ => 0,
    }
}

// The head of an item whose bytes lie in the container.
fn read_whole(s: &[u8], end: usize, at: usize) -> Result<Head, Fault>
    requires { end ≤ length s.now }
    ensures { head_means result ≡ whole s.now end at }
{
    let h = read_head(s, end, at)?;
    let left = end - h.next;
    if left < content(h.kind, h.num) {
        return Err(Fault {
            refusal: Refusal::NotCbor,
            at,
        });
    }
    Ok(h)
}

// The item at `at`, of a wanted kind, whose number, length or count is from lo to hi.
pub fn read_item(
    s: &[u8],
    end: usize,
    at: usize,
    kind: usize,
    lo: usize,
    hi: usize,
) -> Result<Head, Fault>
    requires { end ≤ length s.now }
    ensures { head_means result ≡ item kind lo hi s.now end at }
{
    let h = read_whole(s, end, at)?;
    if h.kind != kind || h.num < lo || hi < h.num {
        return Err(Fault {
            refusal: Refusal::Malformed,
            at,
        });
    }
    Ok(h)
}

// The item at `at`, of either kind, whatever its number.
pub fn read_one_of(
    s: &[u8],
    end: usize,
    at: usize,
    kind: usize,
    other: usize,
) -> Result<Head, Fault>
    requires { end ≤ length s.now }
    ensures { head_means result ≡ one_of kind other s.now end at }
{
    let h = read_whole(s, end, at)?;
    if h.kind != kind && h.kind != other {
        return Err(Fault {
            refusal: Refusal::Malformed,
            at,
        });
    }
    Ok(h)
}
