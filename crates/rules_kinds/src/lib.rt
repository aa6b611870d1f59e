// What stands after the code of a command, by the table.
#![tactic(auto)]

ghost use Rattle.std.specs.Prelude.{◌≡◌};
ghost use Rattle.rules.specs.Commands.{commands, row_of, condition_in};
ghost use Rattle.rules.specs.Tables.{by_number};
ghost use Rattle.rules_kinds.specs.Kinds.{kind_of, is_sequence, is_alternatives};

use rules::codes::{
    CLASS, OVERRIDE_PARAMETERS, RUN_SEQUENCE, SET_INDEX, SET_PARAMETERS, TRY_EACH, VENDOR,
};
use rules::tables::Argument;
use rules_lookup::look_up;
use rules_tables::{Table, tables};

// The kind of the argument; nil where the code is not listed.
#[tactic(auto, unfolding(crate::specs::Kinds::kind_of))]
pub fn kind_of(table: &Table, code: usize) -> Argument
    requires { table.now ≡ by_number }
    ensures { result ≡ kind_of code }
{
    look_up(table, code).map_or(Argument::Nil, |command| command.argument)
}

// Whether the command is a condition; false where the code is not listed.
pub fn is_condition(table: &Table, code: usize) -> bool
    requires { table.now ≡ by_number }
    ensures { result ≡ condition_in (row_of code commands) }
{
    look_up(table, code).is_some_and(|command| command.condition)
}

pub fn holds_sequence(kind: Argument) -> bool
    ensures { result ≡ is_sequence kind }
{
    matches!(kind, Argument::Sequence)
}

pub fn holds_alternatives(kind: Argument) -> bool
    ensures { result ≡ is_alternatives kind }
{
    matches!(kind, Argument::Alternatives)
}

// The same without a table at hand: the run of an envelope and the tools read an argument by it.
#[tactic(auto, using(crate::proofs::KindTests::no_argument), unfolding(crate::specs::Kinds::kind_of))]
pub fn argument_of(code: usize) -> Argument
    ensures { result ≡ kind_of code }
{
    match code {
        VENDOR | CLASS => Argument::Sixteen,
        SET_INDEX => Argument::Index,
        TRY_EACH => Argument::Alternatives,
        SET_PARAMETERS | OVERRIDE_PARAMETERS => Argument::Parameters,
        RUN_SEQUENCE => Argument::Sequence,
        _ => Argument::Nil,
    }
}

pub fn condition_of(code: usize) -> bool
    ensures { result ≡ condition_in (row_of code commands) }
{
    is_condition(&tables(), code)
}
