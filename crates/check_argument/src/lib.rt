// The arguments of commands, by their places.
#![tactic(auto)]

ghost use Rattle.std.specs.Prelude.{◌≡◌, ◌⊎◌, ◌≤◌, length};
ghost use Rattle.rules.specs.declared.tables.Parameter.TheVariants.{Source};
ghost use Rattle.rules.specs.Tables.{by_number};
ghost use Rattle.rules.specs.Cbor.{BYTES, TEXT};
ghost use Rattle.rules.specs.Cbor as Cbor;
ghost use Rattle.rules.specs.Check as Check;
ghost use Rattle.cbor_reading.specs.Reading.{ends, reading, after, item_reading};
ghost use Rattle.check_argument.specs.Argument.{argument_start};

use cbor_reading::{Reading, item, nil, one_of, refuse};
use rules::answers::{Fault, Refusal};
use rules::controller::Controller;
use rules::tables::{Argument, Parameter};
use rules_lookup::look_up_parameter;
use rules_tables::Table;

// A number: the place after it, and its value.
pub fn number(s: &[u8], end: usize, at: usize) -> Result<Reading, Fault>
    requires { end ≤ length s.now }
    ensures { result ≡ reading (λ k. k) (Check.number s.now end at) }
{
    item(s, end, at, cbor::NUMBER, 0, Controller::LARGEST_NUMBER)
}

// What ends before `at`, of no number.
fn ended(at: usize) -> Result<Reading, Fault>
    ensures { result ≡ ends at 0 }
{
    Ok(Reading { at, value: 0 })
}

// A string of lo to hi bytes.
fn string(
    s: &[u8],
    kind: usize,
    lo: usize,
    hi: usize,
    end: usize,
    at: usize,
) -> Result<Reading, Fault>
    requires { (end ≤ length s.now) × ((kind ≡ BYTES) ⊎ (kind ≡ TEXT)) }
    ensures { result ≡ item_reading (Cbor.item kind lo hi s.now end at) }
{
    let h = item(s, end, at, kind, lo, hi)?;
    ended(h.at + h.value)
}

// The index of a component.
fn component(s: &[u8], components: usize, end: usize, at: usize) -> Result<Reading, Fault>
    requires { end ≤ length s.now }
    ensures { result ≡ after (Check.parameter s.now components Source end at) }
{
    let k = number(s, end, at)?;
    if components <= k.value {
        return refuse(Refusal::NoSuchComponent, at);
    }
    ended(k.at)
}

// A parameter's value.
fn parameter(
    s: &[u8],
    components: usize,
    what: Parameter,
    end: usize,
    at: usize,
) -> Result<Reading, Fault>
    requires { end ≤ length s.now }
    ensures { result ≡ after (Check.parameter s.now components what end at) }
{
    match what {
        Parameter::Coerce => ended(one_of(s, end, at, cbor::FALSE, cbor::TRUE)?.at),
        Parameter::Uri => string(s, cbor::TEXT, 1, Controller::URI_BYTES, end, at),
        Parameter::Source => component(s, components, end, at),
        Parameter::Digest => {
            let digest = Controller::DIGEST_BYTES;
            string(s, cbor::BYTES, digest, digest, end, at)
        }
        Parameter::Size => ended(number(s, end, at)?.at),
    }
}

// So many entries of a set or override.
fn entries(
    s: &[u8],
    table: &Table,
    components: usize,
    count: usize,
    end: usize,
    at: usize,
) -> Result<Reading, Fault>
    requires { (end ≤ length s.now) × (table.now ≡ by_number) }
    ensures { result ≡ after (Check.entries s.now components count 0 Check.nothing end at) }
{
    let mut p = at;
    let mut low = 0;
    for _ in 0..count {
        let key = number(s, end, p)?;
        if key.value < low {
            return refuse(Refusal::Malformed, p);
        }
        let Some(what) = look_up_parameter(table, key.value) else {
            return refuse(Refusal::UnknownParameter, p);
        };
        p = parameter(s, components, what, end, key.at)?.at;
        low = key.value + 1;
    }
    ended(p)
}

// An argument: how many sequences it holds, and where the first is; of one that holds none, the place after it.
pub fn read_argument(
    s: &[u8],
    table: &Table,
    components: usize,
    argument: Argument,
    end: usize,
    at: usize,
) -> Result<Reading, Fault>
    requires { (end ≤ length s.now) × (table.now ≡ by_number) }
    ensures { result ≡ reading (λ k. k) (argument_start s.now components argument end at) }
{
    match argument {
        Argument::Sixteen => {
            let class = Controller::CLASS_BYTES;
            string(s, cbor::BYTES, class, class, end, at)
        }
        Argument::Nil => ended(nil(s, end, at)?.at),
        Argument::Index => component(s, components, end, at),
        Argument::Alternatives => item(s, end, at, cbor::ARRAY, 1, Controller::ALTERNATIVES),
        Argument::Parameters => {
            let h = item(s, end, at, cbor::MAP, 1, Controller::PARAMETERS)?;
            entries(s, table, components, h.value, end, h.at)
        }
        Argument::Sequence => Ok(Reading { at, value: 1 }),
    }
}
