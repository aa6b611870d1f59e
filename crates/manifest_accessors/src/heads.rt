// Heads of an envelope that check has accepted: nothing is tested again.
ghost use Rattle.std.specs.Prelude.{◌≡◌};
ghost use Rattle.manifest_accessors.specs.Heads.{HeadAt, Strings};

use byte_buffer::{four, two, wide};

#[derive(Clone, Copy)]
pub struct Opened {
    pub value: usize,
    pub next: usize,
}

// The number of the head at `at`, and the place after it.
pub fn open(s: &[u8], at: usize) -> Opened
    requires { HeadAt s.now at }
    ensures { (x : HeadAt s.now at) → (result.value ≡ x.head.num) × (result.next ≡ x.head.next) }
{
    let low = wide(s[at]) % 32;
    let next = at + 1;
    if low < 24 {
        return Opened { value: low, next };
    }
    if low == 24 {
        return Opened {
            value: wide(s[next]),
            next: next + 1,
        };
    }
    if low == 25 {
        return Opened {
            value: two(s, next),
            next: next + 2,
        };
    }
    Opened {
        value: four(s, next),
        next: next + 4,
    }
}

// The place after k byte strings.
pub fn skip(s: &[u8], k: usize, at: usize) -> usize
    requires { Strings s.now k at }
    ensures { (x : Strings s.now k at) → result ≡ x.to }
{
    let mut p = at;
    for _ in 0..k {
        let b = open(s, p);
        p = b.next + b.value;
    }
    p
}
