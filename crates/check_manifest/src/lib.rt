// The manifest: its start, common, and the sections.
#![tactic(auto)]

ghost use Rattle.std.specs.Prelude.{◌≡◌, ◌≤◌, ◌<◌, length};
ghost use Rattle.rules.specs.Limits.{section_count};
ghost use Rattle.rules.specs.Tables.{by_number};
ghost use Rattle.rules.specs.Check as Check;
ghost use Rattle.cbor_reading.specs.Reading.{place_of, reading};
ghost use Rattle.check_manifest.specs.Body.{front_of, ListRead, CommonRead, body_of};

use cbor_reading::{Reading, item, refuse};
use check_argument::number;
use component_ids::components;
use rules::answers::{Fault, Refusal};
use rules::codes;
use rules::controller::{Controller, PLACES, Places, SECTION_PLACES, SECTIONS, SectionPlaces};
use rules_tables::Table;
use sections::{common_sequence, sections};

mod sections;

// The keys of a manifest that no section has: the version, which is 1, the sequence number, and common.
const VERSION_KEY: usize = 1;

const VERSION: usize = 1;

const NUMBER_KEY: usize = 2;

const REQUIRED: usize = 3;

// Those three, and the five sections.
const MOST_ENTRIES: usize = REQUIRED + SECTIONS - 1;

// The key of the component list in common.
const LIST_KEY: usize = 2;

// Where common's byte string stands, how many entries the manifest has, and its sequence number.
#[derive(Clone, Copy)]
struct Front {
    at: usize,
    entries: usize,
    number: usize,
}

// A key, which is `key`: the place after it.
pub fn key_at(s: &[u8], end: usize, at: usize, key: usize) -> Result<usize, Fault>
    requires { end ≤ length s.now }
    ensures { result ≡ place_of (Check.key s.now key end at) }
{
    let k = item(s, end, at, cbor::NUMBER, key, key)?;
    Ok(k.at)
}

// The version under its key, which is 1: the place after it.
fn version(s: &[u8], end: usize, at: usize) -> Result<usize, Fault>
    requires { end ≤ length s.now }
    ensures { result ≡ place_of (Check.version_at s.now end at) }
{
    let p = key_at(s, end, at, VERSION_KEY)?;
    let v = number(s, end, p)?;
    if v.value != VERSION {
        return refuse(Refusal::WrongVersion, p);
    }
    Ok(v.at)
}

// The sequence number under its key, and the key of common after it.
fn numbered(s: &[u8], end: usize, at: usize) -> Result<Reading, Fault>
    requires { end ≤ length s.now }
    ensures { result ≡ reading (λ n. n) (Check.numbered_at s.now end at) }
{
    let p = key_at(s, end, at, NUMBER_KEY)?;
    let n = number(s, end, p)?;
    let next = key_at(s, end, n.at, codes::COMMON)?;
    Ok(Reading {
        at: next,
        value: n.value,
    })
}

// The manifest up to common: how many entries it has, and its sequence number.
fn read_front(s: &[u8], end: usize, at: usize) -> Result<Front, Fault>
    requires { end ≤ length s.now }
    ensures { result ≡ front_of (Check.front_at s.now end at) }
{
    let h = item(s, end, at, cbor::MAP, REQUIRED, MOST_ENTRIES)?;
    let p = version(s, end, h.at)?;
    let n = numbered(s, end, p)?;
    Ok(Front {
        at: n.at,
        entries: h.value,
        number: n.value,
    })
}

// The component list in its byte string.
fn component_list(s: &[u8], end: usize, at: usize, ids: &mut Places) -> Result<Reading, Fault>
    requires { end ≤ length s.now }
    ensures { ListRead (Check.in_bytes s.now (Check.components s.now) end at) ids result }
{
    let b = item(s, end, at, cbor::BYTES, 0, Controller::LARGEST_NUMBER)?;
    let to = b.at + b.value;
    let r = components(s, to, b.at, ids)?;
    if r.at != to {
        return refuse(Refusal::NotCbor, r.at);
    }
    Ok(r)
}

// Common from `from` to `to`: how many components it lists, and what the commands of its sequence weigh.
#[derive(Clone, Copy)]
struct Common {
    from: usize,
    to: usize,
    components: usize,
    commands: usize,
}

// What each command of common weighs: as many as there are sections, and at least 1.
fn common_weight(entries: usize) -> usize
    requires { entries ≤ 8 }
    ensures { (result ≡ Check.common_weight entries) × (result < section_count) }
{
    if entries <= REQUIRED {
        1
    } else {
        entries - REQUIRED
    }
}

// Common in its byte string, whose commands weigh `weight` each.
fn read_common(
    s: &[u8],
    table: &Table,
    weight: usize,
    end: usize,
    at: usize,
    ids: &mut Places,
    places: &mut SectionPlaces,
) -> Result<Common, Fault>
    requires { (end ≤ length s.now) × (table.now ≡ by_number) × (weight < section_count) }
    ensures { CommonRead weight (Check.common_in s.now weight end at) ids places result }
{
    let b = item(s, end, at, cbor::BYTES, 0, Controller::LARGEST_NUMBER)?;
    let to = b.at + b.value;
    let h = item(s, to, b.at, cbor::MAP, 1, 2)?;
    let p = key_at(s, to, h.at, LIST_KEY)?;
    let l = component_list(s, to, p, ids)?;
    let q = common_sequence(s, table, l.value, weight, h.value - 1, to, l.at, places)?;
    if q.at != to {
        return refuse(Refusal::NotCbor, q.at);
    }
    Ok(Common {
        from: b.at,
        to,
        components: l.value,
        commands: q.value,
    })
}

// What a manifest says of itself, and where its parts stand; it ends before `at`.
#[derive(Clone, Copy)]
pub struct Body {
    pub at: usize,
    pub number: usize,
    pub components: usize,
    pub from: usize,
    pub to: usize,
    pub ids: Places,
    pub sections: SectionPlaces,
}

// The manifest: its number, how many components it has, and where common, the identifiers and the sections stand.
pub fn read_body(s: &[u8], table: &Table, end: usize, at: usize) -> Result<Body, Fault>
    requires { (end ≤ length s.now) × (table.now ≡ by_number) }
    ensures { result ≡ body_of (Check.manifest_at s.now end at) }
{
    let f = read_front(s, end, at)?;
    let mut ids = [0usize; PLACES];
    let mut places = [0usize; SECTION_PLACES];
    let weight = common_weight(f.entries);
    let c = read_common(s, table, weight, end, f.at, &mut ids, &mut places)?;
    let left = f.entries - REQUIRED;
    let r = sections(
        s,
        table,
        c.components,
        left,
        c.commands,
        end,
        c.to,
        &mut places,
    )?;
    Ok(Body {
        at: r.at,
        number: f.number,
        components: c.components,
        from: c.from,
        to: c.to,
        ids,
        sections: places,
    })
}
