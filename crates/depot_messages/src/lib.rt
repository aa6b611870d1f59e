// What the depot tool says of its command line and of files, as text in lent room.
#![tactic(auto)]

ghost use Rattle.text.specs.Text.{Writes};
ghost use Rattle.depot_messages.specs.Messages.{around, unknown_text, words_text, count_text, option_text, group_text};
ghost use Rattle.depot_messages.specs.Messages.{named_text, long_text, error_text, command_text, status_text, message_text};

use crate::errors::put_error_words;
use crate::help::{put_help, put_version};
use text::{put, put_byte};
use text_escaped::put_escaped;
use text_numbers::put_decimal;
use text_pieces::put_labelled;

mod errors;
mod help;

// `Error`, `Long` are of a file; a batch has `Command` and `Status`.
#[derive(Clone, Copy)]
pub enum Message {
    Help,
    Version,
    Unknown,
    Count,
    Option,
    Group,
    Once,
    Nested,
    Long,
    Error,
    Command,
    Status,
}

// A name between two texts.
fn put_around(room: &mut [u8], at: usize, before: &[u8], name: &[u8], after: &[u8]) -> usize
    ensures { Writes (around before.now name.now after.now) at room result }
{
    let a = put(room, at, before);
    let b = put_escaped(room, a, name);
    put(room, b, after)
}

// The first word names no job.
#[tactic(auto, unfolding(crate::specs::Messages::unknown_text))]
fn put_unknown(room: &mut [u8], at: usize, word: &[u8]) -> usize
    ensures { Writes (unknown_text word.now) at room result }
{
    put_around(
        room,
        at,
        b"depot: no command is called '",
        word,
        b"'; depot help lists them\n",
    )
}

fn put_words(room: &mut [u8], at: usize, n: usize) -> usize
    ensures { Writes (words_text n) at room result }
{
    let to = put_decimal(room, at, n);
    match n {
        1 => put(room, to, b" word"),
        _ => put(room, to, b" words"),
    }
}

// A job does not take n words behind the first.
fn put_count(room: &mut [u8], at: usize, word: &[u8], n: usize) -> usize
    ensures { Writes (count_text word.now n) at room result }
{
    let a = put_around(room, at, b"depot: '", word, b"' does not take ");
    let b = put_words(room, a, n);
    put(room, b, b"; depot help says what it takes\n")
}

// The word where `--then` is understood.
#[tactic(auto, unfolding(crate::specs::Messages::option_text))]
fn put_option(room: &mut [u8], at: usize, word: &[u8]) -> usize
    ensures { Writes (option_text word.now) at room result }
{
    put_around(
        room,
        at,
        b"depot: '",
        word,
        b"' stands where --then may stand\n",
    )
}

#[tactic(auto, unfolding(crate::specs::Messages::group_text))]
fn put_group(room: &mut [u8], at: usize, word: &[u8]) -> usize
    ensures { Writes (group_text word.now) at room result }
{
    put_around(
        room,
        at,
        b"depot: the group is install or boot, not '",
        word,
        b"'\n",
    )
}

// What stands before anything that is said of a file.
#[tactic(auto, unfolding(crate::specs::Messages::named_text))]
pub fn put_named(room: &mut [u8], at: usize, name: &[u8]) -> usize
    ensures { Writes (named_text name.now) at room result }
{
    put_around(room, at, b"depot: ", name, b": ")
}

// A file with over n bytes.
fn put_long(room: &mut [u8], at: usize, name: &[u8], n: usize) -> usize
    ensures { Writes (long_text name.now n) at room result }
{
    let a = put_named(room, at, name);
    let b = put_labelled(room, a, b"over ", n);
    put(room, b, b" bytes\n")
}

// Error n of a file.
fn put_error(room: &mut [u8], at: usize, name: &[u8], n: usize) -> usize
    ensures { Writes (error_text name.now n) at room result }
{
    let a = put_named(room, at, name);
    let b = put_error_words(room, a, n);
    put_byte(room, b, b'\n')
}

// A command of a batch, and how it ended.
#[tactic(auto, unfolding(crate::specs::Messages::command_text))]
fn put_command(room: &mut [u8], at: usize, line: &[u8]) -> usize
    ensures { Writes (command_text line.now) at room result }
{
    put_around(room, at, b"$ depot ", line, b"\n")
}

fn put_status(room: &mut [u8], at: usize, n: usize) -> usize
    ensures { Writes (status_text n) at room result }
{
    let to = put_labelled(room, at, b"status ", n);
    put_byte(room, to, b'\n')
}

// A message about a word, a line or a file's name, and a number.
#[tactic(auto, unfolding(crate::specs::Messages::message_text))]
pub fn put_message(room: &mut [u8], at: usize, message: Message, word: &[u8], n: usize) -> usize
    ensures { Writes (message_text message word.now n) at room result }
{
    match message {
        Message::Help => put_help(room, at),
        Message::Version => put_version(room, at),
        Message::Unknown => put_unknown(room, at, word),
        Message::Count => put_count(room, at, word, n),
        Message::Option => put_option(room, at, word),
        Message::Group => put_group(room, at, word),
        Message::Once => put(room, at, b"depot: standard input can be read only once\n"),
        Message::Nested => put(room, at, b"depot: a batch runs no batch\n"),
        Message::Long => put_long(room, at, word, n),
        Message::Error => put_error(room, at, word, n),
        Message::Command => put_command(room, at, word),
        Message::Status => put_status(room, at, n),
    }
}
