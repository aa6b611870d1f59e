// Heads of one byte: the tests under which such a head is read without the general path.
#![tactic(auto)]

ghost use Rattle.std.specs.Prelude.{◌≡◌, true, ℕ, ◌+◌, ◌/◌, ◌%◌, ◌≤◌, ◌<◌};
ghost use Rattle.rules.specs.Cbor as Cbor;

use cbor::{MAP, content};

// Whether `first` is the whole head of an item of a kind from NUMBER to MAP.
pub fn is_short(kind: usize, first: usize) -> bool
    ensures { result ≡ true → (kind ≡ 1 → ⊥) × (kind < 6) × (first / 32 ≡ kind) × (first % 32 < 24) }
{
    kind <= MAP && kind != 1 && 32 * kind <= first && first - 32 * kind < 24
}

// Whether a head's number is in range, and what it says of the content fits into the `left` bytes after the head.
pub fn number_fits(kind: usize, num: usize, left: usize, lo: usize, hi: usize) -> bool
    ensures { result ≡ true → (lo ≤ num) × (num ≤ hi) × ((next : ℕ) → Cbor.after (record { kind = kind; num = num; next = next }) ≤ next + left) }
{
    lo <= num && num <= hi && content(kind, num) <= left
}
