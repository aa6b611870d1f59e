// One command, by its words.
use crate::inspection::{newer_file, view_file};
use crate::runs::{run_file, run_program_file};
use crate::translation::translate_file;
use depot_files::streams::{Streams, fault, tell};
use depot_inspect::View;
use depot_messages::Message;
use depot_status::DONE;
use depot_usage::{Job, fits, job_of};
use depot_words::{word_at, word_count};
use std::fs::Files;

// The file of word 1.
fn view(rt: &(impl Files + Input), view: View, words: &[u8], streams: Streams) -> usize {
    view_file(rt, view, word_at(words, 1), streams)
}

fn newer(rt: &(impl Files + Input), words: &[u8], streams: Streams) -> usize {
    newer_file(rt, word_at(words, 1), word_at(words, 2), streams)
}

// What is told of the tool itself.
fn tell_of(message: Message, streams: Streams) -> usize {
    tell(streams, message, b"", 0, DONE)
}

// What is wrong with the first word, which n follow.
fn refuse(message: Message, words: &[u8], n: usize, streams: Streams) -> usize {
    fault(streams.err, message, word_at(words, 0), n)
}

// Any job but a batch, which the words fit.
fn run_job(rt: &(impl Files + Input), job: Job, words: &[u8], streams: Streams) -> usize {
    match job {
        Job::Check => view(rt, View::Check, words, streams),
        Job::Show => view(rt, View::Show, words, streams),
        Job::Newer => newer(rt, words, streams),
        Job::Translate => translate_file(rt, words, streams),
        Job::List => view(rt, View::List, words, streams),
        Job::Run => run_file(rt, words, streams),
        Job::RunProgram => run_program_file(rt, words, streams),
        Job::Batch => refuse(Message::Nested, words, 0, streams),
        Job::Help => tell_of(Message::Help, streams),
        Job::Version => tell_of(Message::Version, streams),
        Job::Unknown => refuse(Message::Unknown, words, 0, streams),
    }
}

// Any command but a batch; its status.
pub(crate) fn run_command(rt: &(impl Files + Input), words: &[u8], streams: Streams) -> usize {
    let count = word_count(words);
    if count == 0 {
        return fault(streams.err, Message::Help, b"", 0);
    }
    let job = job_of(word_at(words, 0));
    if fits(job, count) {
        return run_job(rt, job, words, streams);
    }
    match job {
        Job::Unknown => refuse(Message::Unknown, words, 0, streams),
        _ => refuse(Message::Count, words, count - 1, streams),
    }
}
