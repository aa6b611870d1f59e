// The depot tool: checks, shows, compares and translates files of envelopes, lists programs, and runs both on described devices.
#![tactic(auto)]

ghost use Rattle.std.specs.Prelude.{IfSome};
ghost use Rattle.std.specs.Counts.{IsPrefixLen};

mod batch;
mod command;
mod inspection;
mod runs;
mod translation;

use buffers::{FILE_BYTES, LINE_BYTES, zeroed};
use byte_buffer::is;
use depot_files::files::beside;
use depot_files::streams::{Stream, Streams, fitted, tell};
use depot_messages::Message;
use depot_usage::{Job, fits, job_of};
use depot_words::{later_words, word_at, word_count};
use std::env::{Env, FillError};
use std::fs::Files;
use text::{put, put_byte};

// Word i, at the start of the buffer, or none behind the last; of one that is too long for a path, as much as makes it so.
fn read_arg(rt: &impl Env, i: usize, word: &mut [u8]) -> Option<usize>
    ensures { IfSome result (λ n. IsPrefixLen n word.new) }
{
    match rt.arg(i, word) {
        Ok(n) => Some(fitted(word, n)),
        Err(FillError::TooLong) => Some(fitted(word, word.len())),
        Err(FillError::NotPresent) => None,
    }
}

fn put_arg(rt: &impl Env, words: &mut [u8], at: usize, i: usize) -> Option<usize> {
    let mut word: [u8; LINE_BYTES] = zeroed();
    let n = read_arg(rt, i, &mut word)?;
    let to = put(words, at, &word[..n]);
    Some(put_byte(words, to, 0))
}

// The words of the command line, without the program's own name.
fn gather(rt: &impl Env, words: &mut [u8]) -> usize {
    let mut to = 0;
    for i in 1..usize::MAX {
        let Some(next) = put_arg(rt, words, to, i) else {
            break;
        };
        to = next;
    }
    to
}

fn run_words(rt: &(impl Files + Input), words: &[u8], streams: Streams) -> usize {
    match job_of(word_at(words, 0)) {
        Job::Batch => {
            if fits(Job::Batch, word_count(words)) {
                return batch::batch_file(rt, word_at(words, 1), streams);
            }
            command::run_command(rt, words, streams)
        }
        _ => command::run_command(rt, words, streams),
    }
}

// Before the command may stand `--status`: its status is then the last line on standard error.
fn run_told(rt: &(impl Files + Input), words: &[u8], streams: Streams) {
    if is(word_at(words, 0), b"--status") {
        let status = run_words(rt, later_words(words), streams);
        tell(beside(b"-", streams), Message::Status, b"", status, status);
        return;
    }
    run_words(rt, words, streams);
}

fn main(rt: HostRuntime) {
    let streams = Streams {
        out: Stream::Output(rt.stdout()),
        err: Stream::Error(rt.stderr()),
    };
    let mut words: [u8; FILE_BYTES] = zeroed();
    let to = gather(&rt, &mut words);
    let n = fitted(&words, to);
    run_told(&rt, &words[..n], streams);
}
