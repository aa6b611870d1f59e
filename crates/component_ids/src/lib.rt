// The component list: its identifiers, and the search for a repeated one.
#![tactic(auto)]

ghost use Rattle.std.specs.Prelude.{◌≡◌, ◌+◌, ◌≤◌, length};
ghost use Rattle.rules.specs.Bytes.{part, InBytes, same};
ghost use Rattle.rules.specs.Check as Check;
ghost use Rattle.rules.specs.Limits.{limits};
ghost use Rattle.cbor_reading.specs.Reading.{place_of, reading};
ghost use Rattle.component_ids.specs.Identifiers.{plain, listing, listed, laid, ids_read, repeated};

use byte_buffer::equal;
use cbor_reading::{Reading, item, refuse};
use rules::answers::{Fault, Refusal};
use rules::controller::{Controller, Places};

// So many byte strings: the place after them.
fn strings(s: &[u8], end: usize, at: usize, count: usize) -> Result<usize, Fault>
    requires { end ≤ length s.now }
    ensures { result ≡ place_of (Check.strings s.now count end at) }
{
    let mut p = at;
    for _ in 0..count {
        let h = item(s, end, p, cbor::BYTES, 0, Controller::LARGEST_NUMBER)?;
        p = h.at + h.value;
    }
    Ok(p)
}

// One identifier, whatever stands before it: the place after it.
fn identifier(s: &[u8], end: usize, at: usize) -> Result<usize, Fault>
    requires { end ≤ length s.now }
    ensures { result ≡ place_of (plain s.now end at) }
{
    let h = item(s, end, at, cbor::ARRAY, 1, Controller::IDENTIFIER_PARTS)?;
    let next = strings(s, end, h.at, h.value)?;
    if Controller::IDENTIFIER_BYTES < next - at {
        return refuse(Refusal::Malformed, at);
    }
    Ok(next)
}

// How many identifiers were read, and the place after them, or why the next was refused.
#[derive(Clone, Copy)]
struct Listed {
    count: usize,
    end: Result<usize, Fault>,
}

// So many identifiers, until one is refused, and their places.
fn identifiers(s: &[u8], end: usize, at: usize, count: usize, ids: &mut Places) -> Listed
    requires { (end ≤ length s.now) × (count ≤ limits.components) }
    ensures { (result ≡ listed (listing s.now count end at)) × (ids.new ≡ laid (listing s.now count end at).ids ids.old) }
{
    let places: &mut [usize] = ids;
    let mut p = at;
    for k in 0..count {
        let next = match identifier(s, end, p) {
            Ok(next) => next,
            Err(fault) => {
                return Listed {
                    count: k,
                    end: Err(fault),
                };
            }
        };
        places[2 * k] = p;
        places[2 * k + 1] = next;
        p = next;
    }
    Listed { count, end: Ok(p) }
}

// Whether two parts of the envelope have the same bytes.
fn same_bytes(s: &[u8], from: usize, size: usize, other: usize, width: usize) -> bool
    requires { (from + size ≤ length s.now) × (other + width ≤ length s.now) }
    ensures { result ≡ same (part s.now from size) (part s.now other width) }
{
    if size != width {
        return false;
    }
    equal(s, from, s, other, size)
}

// The first equal pair of the first `count` identifiers, the later one outside: the number of the later one.
pub fn repeated_one(s: &[u8], ids: &Places, count: usize) -> Option<usize>
    requires { (count ≤ limits.components) × InBytes ids.now count (length s.now) }
    ensures { result ≡ repeated s.now ids.now count }
{
    'pairs: {
        for j in 0..count {
            let later = ids[2 * j];
            let size = ids[2 * j + 1] - later;
            for i in 0..j {
                let earlier = ids[2 * i];
                let width = ids[2 * i + 1] - earlier;
                if same_bytes(s, later, size, earlier, width) {
                    break 'pairs Some(j);
                }
            }
        }
        None
    }
}

// The component list: how many identifiers, and their places.
pub fn components(s: &[u8], end: usize, at: usize, ids: &mut Places) -> Result<Reading, Fault>
    requires { end ≤ length s.now }
    ensures { (result ≡ reading length (Check.components s.now end at)) × (ids.new ≡ laid (ids_read s.now end at) ids.old) }
{
    let h = item(s, end, at, cbor::ARRAY, 1, Controller::COMPONENTS)?;
    let read = identifiers(s, end, h.at, h.value, ids);
    if let Some(j) = repeated_one(s, ids, read.count) {
        return refuse(Refusal::RepeatedIdentifier, ids[2 * j]);
    }
    let next = read.end?;
    Ok(Reading {
        at: next,
        value: read.count,
    })
}
