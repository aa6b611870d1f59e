// Sections: sequences in byte strings under ascending keys.
ghost use Rattle.std.specs.Prelude.{◌≡◌, ◌+◌, ◌*◌, ◌≤◌, ◌<◌, length};
ghost use Rattle.rules.specs.Limits.{section_count};
ghost use Rattle.rules.specs.Commands.{PAYLOAD_FETCH, section_no};
ghost use Rattle.rules.specs.Tables.{by_number};
ghost use Rattle.rules.specs.Manifest.{count, count_all};
ghost use Rattle.rules.specs.Check as Check;
ghost use Rattle.check_command.specs.Command.{Section};
ghost use Rattle.check_manifest.specs.Sections.{SectionRead, SectionsRead};

use crate::key_at;
use cbor_reading::{Reading, item, refuse};
use check_sequence::check_sequence;
use rules::answers::{Fault, Refusal};
use rules::codes;
use rules::controller::{Controller, SectionPlaces};
use rules_tables::Table;

// The key of common's own sequence.
const SEQUENCE_KEY: usize = 4;

// Sections 8 to 12 have numbers 1 to 5.
const BEFORE_SECTIONS: usize = codes::PAYLOAD_FETCH - 1;

// The number of a section in the array of places.
fn section_number(key: usize) -> usize
    requires { Section key }
    ensures { (result ≡ section_no key) × (result < section_count) }
{
    if key == codes::COMMON {
        0
    } else {
        key - BEFORE_SECTIONS
    }
}

// The section under `key`, whose commands weigh `weight` each, after commands that weigh `commands`.
fn section(
    s: &[u8],
    table: &Table,
    components: usize,
    key: usize,
    weight: usize,
    commands: usize,
    end: usize,
    at: usize,
    places: &mut SectionPlaces,
) -> Result<Reading, Fault>
    requires { (end ≤ length s.now) × (table.now ≡ by_number) × Section key × (weight < section_count) }
    ensures { SectionRead (λ x. commands + weight * count x.seq) (Check.section_at s.now components key weight commands end at) places result }
{
    let b = item(s, end, at, cbor::BYTES, 0, Controller::LARGEST_NUMBER)?;
    let to = b.at + b.value;
    let r = check_sequence(
        s,
        table,
        components,
        key,
        weight,
        Controller::DEPTH,
        commands,
        to,
        b.at,
    )?;
    if r.at != to {
        return refuse(Refusal::NotCbor, r.at);
    }
    let i = section_number(key);
    places[2 * i] = b.at;
    places[2 * i + 1] = to;
    Ok(r)
}

// k sections, whose keys ascend from 8 on and whose commands weigh 1 each, after commands that weigh `commands`.
pub(crate) fn sections(
    s: &[u8],
    table: &Table,
    components: usize,
    k: usize,
    commands: usize,
    end: usize,
    at: usize,
    places: &mut SectionPlaces,
) -> Result<Reading, Fault>
    requires { (end ≤ length s.now) × (table.now ≡ by_number) }
    ensures { SectionsRead (λ xs. commands + count_all xs) (Check.sections_at s.now components k PAYLOAD_FETCH commands end at) places result }
{
    let mut p = at;
    let mut low = codes::PAYLOAD_FETCH;
    let mut so_far = commands;
    for _ in 0..k {
        let h = item(s, end, p, cbor::NUMBER, low, codes::RUN_SECTION)?;
        let r = section(s, table, components, h.value, 1, so_far, end, h.at, places)?;
        p = r.at;
        so_far = r.value;
        low = h.value + 1;
    }
    Ok(Reading {
        at: p,
        value: so_far,
    })
}

// Common's own sequence, of which k entries, one or none, are left.
pub(crate) fn common_sequence(
    s: &[u8],
    table: &Table,
    components: usize,
    weight: usize,
    k: usize,
    end: usize,
    at: usize,
    places: &mut SectionPlaces,
) -> Result<Reading, Fault>
    requires { (end ≤ length s.now) × (table.now ≡ by_number) × (k ≤ 1) × (weight < section_count) }
    ensures { SectionsRead (λ xs. weight * count_all xs) (Check.common_seq s.now components weight k end at) places result }
{
    if k == 0 {
        return Ok(Reading { at, value: 0 });
    }
    let p = key_at(s, end, at, SEQUENCE_KEY)?;
    section(
        s,
        table,
        components,
        codes::COMMON,
        weight,
        0,
        end,
        p,
        places,
    )
}
