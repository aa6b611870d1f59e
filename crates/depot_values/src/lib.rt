// The value of a parameter in a program: a URI in quotes, a digest in hexadecimal, a number in decimal.
#![tactic(auto)]

ghost use Rattle.text.specs.Text.{Writes};
ghost use Rattle.depot_values.specs.Values.{number_text, known_text, value_text};

use byte_buffer::{four, wide};
use rules::program_format::{SIZE_BYTES, SOURCE_BYTES};
use rules::tables::Parameter;
use rules_lookup::look_up_parameter;
use rules_tables::tables;
use text::put_quoted;
use text_numbers::{put_decimal, put_hex};

// A number of as many bytes as a size or a source.
fn put_number(room: &mut [u8], at: usize, s: &[u8]) -> usize
    ensures { Writes (number_text s.now) at room result }
{
    match s.len() {
        SIZE_BYTES => put_decimal(room, at, four(s, 0)),
        SOURCE_BYTES => put_decimal(room, at, wide(s[0])),
        _ => put_hex(room, at, s),
    }
}

fn put_known(room: &mut [u8], at: usize, parameter: Parameter, s: &[u8]) -> usize
    ensures { Writes (known_text parameter s.now) at room result }
{
    match parameter {
        Parameter::Uri => put_quoted(room, at, s),
        Parameter::Digest => put_hex(room, at, s),
        Parameter::Coerce | Parameter::Source | Parameter::Size => put_number(room, at, s),
    }
}

pub fn put_value(room: &mut [u8], at: usize, key: usize, s: &[u8]) -> usize
    ensures { Writes (value_text key s.now) at room result }
{
    let row = look_up_parameter(&tables(), key);
    match row {
        Some(parameter) => put_known(room, at, parameter, s),
        None => put_number(room, at, s),
    }
}
