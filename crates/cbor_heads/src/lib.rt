// Heads of CBOR, as a manifest may use it: definite lengths, shortest heads, numbers to 2^32-1.
#![tactic(auto)]

ghost use Rattle.std.specs.Prelude.{◌≡◌, ◌%◌, ◌≤◌, ◌<◌, length, get_or};
ghost use Rattle.rules.specs.declared.answers.Refusal.TheVariants.{NotCbor};
ghost use Rattle.rules.specs.Got.{refused, got};
ghost use Rattle.rules.specs.Cbor.{head};
ghost use Rattle.cbor_heads.specs.Answer.{head_means};

use byte_buffer::{four, two, wide};
use rules::answers::{Fault, Refusal};

// Kinds of items. They stay numbers: who reads an item may want any number for its kind (read_item of cbor).
pub const NUMBER: usize = 0;

pub const BYTES: usize = 2;

pub const TEXT: usize = 3;

pub const ARRAY: usize = 4;

pub const MAP: usize = 5;

pub const FALSE: usize = 20;

pub const TRUE: usize = 21;

pub const NIL: usize = 22;

// A head: its kind, its number (0 for false, true and nil) and the place after it.
#[derive(Clone, Copy)]
pub struct Head {
    pub kind: usize,
    pub num: usize,
    pub next: usize,
}

// The head, unless its number is too small for the bytes that it has.
fn shortest(kind: usize, num: usize, next: usize, least: usize, at: usize) -> Result<Head, Fault>
    ensures { (num < least → head_means result ≡ refused NotCbor at) × (least ≤ num → head_means result ≡ got (record { kind = kind; num = num; next = next })) }
{
    if num < least {
        return Err(Fault {
            refusal: Refusal::NotCbor,
            at,
        });
    }
    Ok(Head { kind, num, next })
}

// A head whose number is in the 1, 2 or 4 bytes after its first byte.
fn long_head(s: &[u8], end: usize, at: usize, first: usize) -> Result<Head, Fault>
    requires { (at < end) × (end ≤ length s.now) × (first ≡ get_or s.now at 0) × (24 ≤ first % 32) }
    ensures { head_means result ≡ head s.now end at }
{
    let kind = first / 32;
    let from = at + 1;
    let left = end - from;
    let refused = Err(Fault {
        refusal: Refusal::NotCbor,
        at,
    });
    if kind == 1 || MAP < kind {
        return refused;
    }
    match first % 32 {
        24 if 1 <= left => shortest(kind, wide(s[from]), from + 1, 24, at),
        25 if 2 <= left => shortest(kind, two(s, from), from + 2, 256, at),
        26 if 4 <= left => shortest(kind, four(s, from), from + 4, 65536, at),
        _ => refused,
    }
}

// The head at `at`, in a container that ends at `end`.
pub fn read_head(s: &[u8], end: usize, at: usize) -> Result<Head, Fault>
    requires { end ≤ length s.now }
    ensures { head_means result ≡ head s.now end at }
{
    let refused = Err(Fault {
        refusal: Refusal::NotCbor,
        at,
    });
    if end <= at {
        return refused;
    }
    let first = wide(s[at]);
    let low = first % 32;
    let next = at + 1;
    match first {
        0x00..=0x17 => Ok(Head {
            kind: NUMBER,
            num: first,
            next,
        }),
        _ if 24 <= low => long_head(s, end, at, first),
        0x40..=0xbf => Ok(Head {
            kind: first / 32,
            num: low,
            next,
        }),
        0xf4..=0xf6 => Ok(Head {
            kind: low,
            num: 0,
            next,
        }),
        _ => refused,
    }
}
