// The parameters of a command, as a program writes them: key, length, value.
#![tactic(auto)]

ghost use Rattle.std.specs.Prelude.{◌≡◌, ℕ, ◌+◌, ◌-◌, ◌≤◌, ◌<◌, length, Some};
ghost use Rattle.rules.specs.Bytes.{part};
ghost use Rattle.rules.specs.ProgramFormat.{entry_size, source_bytes, size_bytes};
ghost use Rattle.rules.specs.Got.{accepted};
ghost use Rattle.rules.specs.ProgramTest as Rule;
ghost use Rattle.program_parameters.specs.Entries.{end_at, ends_at, WellFormed, place_in, length_in, source_in, size_in};
ghost use Rattle.program_parameters.specs.Entries.{ParametersAt, Taken};

use byte_buffer::{four, wide};
use rules::codes;
use rules::controller::Controller;
use rules::program_format::{ENTRY_BYTES, ENTRY_LENGTH, SIZE_BYTES, SOURCE_BYTES};
use run_slots::params::Params;

// The place after the parameter of that key, of lo to hi bytes, if it stands at `at` before `to`; none if it is not well formed.
fn optional(p: &[u8], at: usize, to: usize, key: usize, lo: usize, hi: usize) -> Option<usize>
    requires { (at ≤ to) × (to ≤ length p.now) }
    ensures { result ≡ end_at p.now to key lo hi at }
{
    if at == to || wide(p[at]) != key {
        return Some(at);
    }
    let left = to - at;
    if left < ENTRY_BYTES {
        return None;
    }
    let room = left - ENTRY_BYTES;
    // where the length is fixed, this makes the last test idle
    if room < lo {
        return None;
    }
    let n = wide(p[at + ENTRY_LENGTH]);
    if n < lo || hi < n || room < n {
        return None;
    }
    Some(at + ENTRY_BYTES + n)
}

// The place after the parameter of that key, if it stands at `at` before `to`; what stands there is well formed.
fn past(p: &[u8], at: usize, to: usize, key: usize) -> usize
    requires { (at ≤ to) × (to ≤ length p.now) × ((lo : ℕ) × (hi : ℕ) × WellFormed p.now to key lo hi at) }
    ensures { (lo hi : ℕ) → WellFormed p.now to key lo hi at → Some result ≡ end_at p.now to key lo hi at }
{
    if at == to || wide(p[at]) != key {
        return at;
    }
    at + ENTRY_BYTES + wide(p[at + ENTRY_LENGTH])
}

// Of a parameter that stands from `at` to `next`, where its value starts, and its length. 0 for none stays:
// these go into Params, which a run keeps as numbers in memory of fixed size.
fn place_of(at: usize, next: usize) -> usize
    requires { (at ≡ next → ⊥) → at + entry_size ≤ next }
    ensures { result ≡ place_in at next }
{
    if at == next { 0 } else { at + ENTRY_BYTES }
}

fn length_of(at: usize, next: usize) -> usize
    requires { (at ≡ next → ⊥) → at + entry_size ≤ next }
    ensures { result ≡ length_in at next }
{
    if at == next {
        0
    } else {
        next - at - ENTRY_BYTES
    }
}

// One more than its value of one byte, and of four; 0 for none, as above.
fn source_of(p: &[u8], at: usize, next: usize) -> usize
    requires { (at ≡ next → ⊥) → at + entry_size + source_bytes ≤ length p.now }
    ensures { result ≡ source_in p.now at next }
{
    if at == next {
        0
    } else {
        wide(p[at + ENTRY_BYTES]) + 1
    }
}

fn size_of(p: &[u8], at: usize, next: usize) -> usize
    requires { (at ≡ next → ⊥) → at + entry_size + size_bytes ≤ length p.now }
    ensures { result ≡ size_in p.now at next }
{
    if at == next {
        0
    } else {
        four(p, at + ENTRY_BYTES) + 1
    }
}

// The place after the parameters that stand at `from`, up to `to`, for n components; none if they are not well formed.
fn params_end(p: &[u8], from: usize, to: usize, n: usize) -> Option<usize>
    requires { (from ≤ to) × (to ≤ length p.now) }
    ensures { ends_at to result ≡ accepted (Rule.params_in n (part p.now from (to - from))) }
{
    let a = optional(p, from, to, codes::URI, 1, Controller::URI_BYTES)?;
    let b = optional(p, a, to, codes::SOURCE, SOURCE_BYTES, SOURCE_BYTES)?;
    if n < source_of(p, a, b) {
        return None;
    }
    let c = optional(
        p,
        b,
        to,
        codes::DIGEST,
        Controller::DIGEST_BYTES,
        Controller::DIGEST_BYTES,
    )?;
    optional(p, c, to, codes::SIZE, SIZE_BYTES, SIZE_BYTES)
}

// Whether the bytes from `from` to `to` are parameters, for n components.
pub fn params_fit(p: &[u8], from: usize, to: usize, n: usize) -> bool
    requires { (from ≤ to) × (to ≤ length p.now) }
    ensures { result ≡ accepted (Rule.params_in n (part p.now from (to - from))) }
{
    params_end(p, from, to, n) == Some(to)
}

// The parameters from `from` to `to`, which are well formed.
pub fn take_params(p: &[u8], from: usize, to: usize) -> Params
    requires { ParametersAt p.now from to }
    ensures { (x : ParametersAt p.now from to) → Taken p.now from to x result }
{
    let a = past(p, from, to, codes::URI);
    let b = past(p, a, to, codes::SOURCE);
    let c = past(p, b, to, codes::DIGEST);
    Params {
        uri: place_of(from, a),
        length: length_of(from, a),
        source: source_of(p, a, b),
        digest: place_of(b, c),
        size: size_of(p, c, to),
    }
}
