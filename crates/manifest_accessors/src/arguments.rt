// The arguments of commands that write an event, in an envelope that check has accepted.
ghost use Rattle.std.specs.Prelude.{◌≡◌};
ghost use Rattle.manifest_accessors.specs.Arguments.{flag_of, bare_at, component_of};
ghost use Rattle.manifest_accessors.specs.Arguments.{EntryAt, EntryPut, Entries, EntriesRead, ArgumentAt, ArgumentRead};

use crate::heads::open;
use rules::codes::{COERCE, DIGEST, SET_INDEX, SOURCE, URI};
use rules::controller::Controller;
use rules::tables::Argument;
use rules_kinds::argument_of;
use run_slots::params::Params;

// Coerce as a number.
const COERCE_UNSET: usize = 0;

pub const COERCE_FALSE: usize = 1;

pub const COERCE_TRUE: usize = 2;

// The byte of CBOR's true.
const TRUE: u8 = 0xf5;

// The place of the bytes of an identity, or the new index; the parameters; coerce; and the place after.
#[derive(Clone, Copy)]
pub struct Args {
    pub value: usize,
    pub params: Params,
    pub coerce: usize,
    pub next: usize,
}

fn bare(value: usize, next: usize) -> Args
    ensures { result ≡ bare_at value next }
{
    let params = Params {
        uri: 0,
        length: 0,
        source: 0,
        digest: 0,
        size: 0,
    };
    Args {
        value,
        params,
        coerce: COERCE_UNSET,
        next,
    }
}

// Coerce by the byte of false or true.
fn flag(b: u8) -> usize
    ensures { result ≡ flag_of b }
{
    if b == TRUE { COERCE_TRUE } else { COERCE_FALSE }
}

// The parameter under that key at `at`, after those of `a`.
fn entry(s: &[u8], key: usize, at: usize, a: Args) -> Args
    requires { EntryAt s.now key at }
    ensures { (x : EntryAt s.now key at) → EntryPut s.now key at x a result }
{
    if key == COERCE {
        let mut r = a;
        r.coerce = flag(s[at]);
        r.next = at + 1;
        return r;
    }
    let h = open(s, at);
    let value = h.value;
    let mut next = h.next;
    let mut p = a.params;
    match key {
        URI => {
            p.uri = next;
            p.length = value;
            next += value;
        }
        SOURCE => {
            p.source = value + 1;
        }
        DIGEST => {
            p.digest = next;
            next += Controller::DIGEST_BYTES;
        }
        _ => {
            p.size = value + 1;
        }
    }
    Args {
        value: a.value,
        params: p,
        coerce: a.coerce,
        next,
    }
}

// k entries of a map of parameters.
fn read_entries(s: &[u8], k: usize, at: usize) -> Args
    requires { Entries s.now k at }
    ensures { (x : Entries s.now k at) → EntriesRead s.now k at x result }
{
    let mut a = bare(0, at);
    for _ in 0..k {
        let name = open(s, a.next);
        a = entry(s, name.value, name.next, a);
    }
    a
}

// The argument at `at` of the command of that code, by its kind. Sequences and alternatives are no argument of a command that writes an event.
pub fn read_one(s: &[u8], code: usize, at: usize) -> Args
    requires { ArgumentAt s.now code at }
    ensures { (x : ArgumentAt s.now code at) → ArgumentRead s.now code at x result }
{
    match argument_of(code) {
        Argument::Sixteen => {
            let h = open(s, at);
            bare(h.next, h.next + Controller::CLASS_BYTES)
        }
        Argument::Index => {
            let h = open(s, at);
            bare(h.value, h.next)
        }
        Argument::Parameters => {
            let h = open(s, at);
            read_entries(s, h.value, h.next)
        }
        Argument::Nil | Argument::Alternatives | Argument::Sequence => bare(0, at + 1),
    }
}

// The component of the command of that code: its value, the new index, where it sets the index.
pub fn component(code: usize, value: usize, index: usize) -> usize
    ensures { result ≡ component_of code value index }
{
    if code == SET_INDEX { value } else { index }
}
