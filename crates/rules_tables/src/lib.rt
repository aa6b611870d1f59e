// The tables of commands and parameters, as data: check, the program test and translation take codes and keys from here.
#![tactic(auto)]

ghost use Rattle.std.specs.Prelude.{◌≡◌, [], map, ◌<◌, Some};
ghost use Rattle.rules.specs.Commands.{commands, params};
ghost use Rattle.rules.specs.Tables.{as_command, as_parameter_row, argument_number, parameter_number, packed, table_of, by_number};

use rules::codes;
use rules::controller::Controller;
use rules::tables::{Argument, Command, Parameter, ParameterRow};

pub mod kinds;

// The rows of the table of commands; in the table by number one entry for each code, then one for each key.
const ROWS: usize = 13;

pub const CODES: usize = codes::SWAP + 1;

pub const KEYS: usize = codes::SIZE + 1;

const ENTRIES: usize = CODES + KEYS;

pub type Table = [u16; ENTRIES];

// A set of sections is the sum of its members.
pub const COMMON: u8 = 1;

pub const PAYLOAD_FETCH: u8 = 2;

pub const INSTALL: u8 = 4;

pub const VALIDATE: u8 = 8;

pub const LOAD: u8 = 16;

pub const RUN: u8 = 32;

const ANYWHERE: u8 = COMMON + PAYLOAD_FETCH + INSTALL + VALIDATE + LOAD + RUN;

const COMMANDS: [Command; ROWS] = [
    Command {
        code: codes::VENDOR as u8,
        condition: true,
        argument: Argument::Sixteen,
        sections: ANYWHERE,
    },
    Command {
        code: codes::CLASS as u8,
        condition: true,
        argument: Argument::Sixteen,
        sections: ANYWHERE,
    },
    Command {
        code: codes::IMAGE_MATCH as u8,
        condition: true,
        argument: Argument::Nil,
        sections: ANYWHERE,
    },
    Command {
        code: codes::SET_INDEX as u8,
        condition: false,
        argument: Argument::Index,
        sections: ANYWHERE,
    },
    Command {
        code: codes::ABORT as u8,
        condition: false,
        argument: Argument::Nil,
        sections: ANYWHERE,
    },
    Command {
        code: codes::TRY_EACH as u8,
        condition: false,
        argument: Argument::Alternatives,
        sections: ANYWHERE,
    },
    Command {
        code: codes::SET_PARAMETERS as u8,
        condition: false,
        argument: Argument::Parameters,
        sections: ANYWHERE,
    },
    Command {
        code: codes::OVERRIDE_PARAMETERS as u8,
        condition: false,
        argument: Argument::Parameters,
        sections: ANYWHERE,
    },
    Command {
        code: codes::FETCH as u8,
        condition: false,
        argument: Argument::Nil,
        sections: PAYLOAD_FETCH + INSTALL,
    },
    Command {
        code: codes::COPY as u8,
        condition: false,
        argument: Argument::Nil,
        sections: PAYLOAD_FETCH + INSTALL + LOAD,
    },
    Command {
        code: codes::RUN as u8,
        condition: false,
        argument: Argument::Nil,
        sections: RUN,
    },
    Command {
        code: codes::RUN_SEQUENCE as u8,
        condition: false,
        argument: Argument::Sequence,
        sections: ANYWHERE,
    },
    Command {
        code: codes::SWAP as u8,
        condition: false,
        argument: Argument::Nil,
        sections: PAYLOAD_FETCH + INSTALL + LOAD,
    },
];

const PARAMETERS: [ParameterRow; Controller::PARAMETERS] = [
    ParameterRow {
        key: codes::COERCE as u8,
        parameter: Parameter::Coerce,
    },
    ParameterRow {
        key: codes::URI as u8,
        parameter: Parameter::Uri,
    },
    ParameterRow {
        key: codes::SOURCE as u8,
        parameter: Parameter::Source,
    },
    ParameterRow {
        key: codes::DIGEST as u8,
        parameter: Parameter::Digest,
    },
    ParameterRow {
        key: codes::SIZE as u8,
        parameter: Parameter::Size,
    },
];

// An entry has three bits for it.
fn argument_number(argument: Argument) -> u16
    ensures { (result ≡ argument_number argument) × (result < 8) }
{
    match argument {
        Argument::Sixteen => kinds::SIXTEEN,
        Argument::Nil => kinds::NIL,
        Argument::Index => kinds::INDEX,
        Argument::Alternatives => kinds::ALTERNATIVES,
        Argument::Parameters => kinds::PARAMETERS,
        Argument::Sequence => kinds::SEQUENCE,
    }
}

// Its entry in the table by number.
fn pack(row: Command) -> u16
    ensures { result ≡ packed (Some row) }
{
    u16::from(row.condition) * 512 + argument_number(row.argument) * 64 + u16::from(row.sections)
}

fn parameter_number(parameter: Parameter) -> u16
    ensures { result ≡ parameter_number parameter }
{
    match parameter {
        Parameter::Coerce => 1,
        Parameter::Uri => 2,
        Parameter::Source => 3,
        Parameter::Digest => 4,
        Parameter::Size => 5,
    }
}

// The two constants are the rule's tables.
fn command_rows() -> [Command; ROWS]
    ensures { result ≡ map as_command commands }
{
    COMMANDS
}

fn parameter_rows() -> [ParameterRow; Controller::PARAMETERS]
    ensures { result ≡ map as_parameter_row params }
{
    PARAMETERS
}

fn with_commands(rows: [Command; ROWS]) -> Table
    requires { rows ≡ map as_command commands }
    ensures { result ≡ table_of commands [] }
{
    let mut table = [0u16; ENTRIES];
    for row in &rows {
        table[row.code as usize] = pack(*row);
    }
    table
}

fn with_parameters(mut table: Table, rows: [ParameterRow; Controller::PARAMETERS]) -> Table
    requires { (table ≡ table_of commands []) × (rows ≡ map as_parameter_row params) }
    ensures { result ≡ by_number }
{
    for row in &rows {
        table[CODES + row.key as usize] = parameter_number(row.parameter);
    }
    table
}

// Both tables by number, made once and lent to each look-up: at c the command of code c, behind them at k the parameter of key k,
// and 0 where nothing is listed.
pub fn tables() -> Table
    ensures { result ≡ by_number }
{
    with_parameters(with_commands(command_rows()), parameter_rows())
}
