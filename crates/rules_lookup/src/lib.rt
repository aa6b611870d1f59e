// Look-ups in the tables by number.
#![tactic(auto)]

ghost use Rattle.std.specs.Prelude.{◌≡◌, ◌<◌};
ghost use Rattle.rules.specs.Commands.{commands, row_of, params, param_of};
ghost use Rattle.rules.specs.Tables.{listed, known, argument_at, known_at, codes, by_number};
ghost use Rattle.rules_lookup.specs.Entry.{unpacked, entry_of};

use rules::tables::{Argument, Command, Parameter};
use rules_tables::{CODES, KEYS, Table, kinds};

fn argument_at(number: u16) -> Argument
    ensures { result ≡ argument_at number }
{
    match number {
        kinds::SIXTEEN => Argument::Sixteen,
        kinds::NIL => Argument::Nil,
        kinds::INDEX => Argument::Index,
        kinds::ALTERNATIVES => Argument::Alternatives,
        kinds::PARAMETERS => Argument::Parameters,
        _ => Argument::Sequence,
    }
}

fn known_at(number: u16) -> Option<Parameter>
    ensures { result ≡ known_at number }
{
    match number {
        1 => Some(Parameter::Coerce),
        2 => Some(Parameter::Uri),
        3 => Some(Parameter::Source),
        4 => Some(Parameter::Digest),
        5 => Some(Parameter::Size),
        _ => None,
    }
}

// The parts of an entry.
fn sections_in(entry: u16) -> u8
    ensures { result ≡ (unpacked entry).sections }
{
    (entry % 64) as u8
}

fn kind_in(entry: u16) -> u16
    ensures { result ≡ (unpacked entry).kind }
{
    entry / 64 % 8
}

fn condition_in(entry: u16) -> bool
    ensures { result ≡ (unpacked entry).condition }
{
    entry / 512 == 1
}

// An entry, taken apart; sections 0 where nothing is listed, and the kind by its number: the program test asks so of each record,
// and its clauses are about these numbers (program_arguments::argument_fits).
#[derive(Clone, Copy)]
pub struct Entry {
    pub sections: u8,
    pub kind: u16,
    pub condition: bool,
}

pub fn entry_at(table: &Table, code: usize) -> Entry
    requires { (table.now ≡ by_number) × (code < codes) }
    ensures { result ≡ entry_of (row_of code commands) }
{
    let entry = table[code];
    Entry {
        sections: sections_in(entry),
        kind: kind_in(entry),
        condition: condition_in(entry),
    }
}

pub fn look_up(table: &Table, code: usize) -> Option<Command>
    requires { table.now ≡ by_number }
    ensures { result ≡ listed (row_of code commands) }
{
    if CODES <= code {
        return None;
    }
    let entry = table[code];
    if entry == 0 {
        return None;
    }
    Some(Command {
        code: code as u8,
        condition: condition_in(entry),
        argument: argument_at(kind_in(entry)),
        sections: sections_in(entry),
    })
}

pub fn look_up_parameter(table: &Table, key: usize) -> Option<Parameter>
    requires { table.now ≡ by_number }
    ensures { result ≡ known (param_of key params) }
{
    if KEYS <= key {
        return None;
    }
    known_at(table[CODES + key])
}
