// A batch: a command on each line of a file. Messages go to standard output too, and each command's status stands below it.
use crate::command::run_command;
use buffers::{FILE_BYTES, zeroed};
use depot_files::files::load;
use depot_files::streams::{Streams, fitted, tell};
use depot_messages::Message;
use depot_status::{DONE, FAULT};
use depot_words::put_words;
use device_text::line::line_at;
use std::fs::Files;

const LINE_FEED: u8 = 10;

// One line; an empty one is passed over.
fn run_line(rt: &(impl Files + Input), line: &[u8], streams: Streams) -> usize {
    if line.len() == 0 {
        return DONE;
    }
    tell(streams, Message::Command, line, 0, DONE);
    let mut words: [u8; FILE_BYTES] = zeroed();
    let n = put_words(&mut words, 0, line);
    let m = fitted(&words, n);
    let status = run_command(rt, &words[..m], streams);
    tell(streams, Message::Status, b"", status, status)
}

// All lines, and the greatest status among them.
fn run_lines(rt: &(impl Files + Input), text: &[u8], streams: Streams) -> usize {
    let mut worst = DONE;
    for line in text.split(|b| *b == LINE_FEED) {
        let status = run_line(rt, line_at(line, 0), streams);
        worst = worst.max(status);
    }
    worst
}

pub(crate) fn batch_file(rt: &(impl Files + Input), name: &[u8], streams: Streams) -> usize {
    let mut file: [u8; FILE_BYTES] = zeroed();
    let Some(n) = load(rt, name, &mut file, streams.err) else {
        return FAULT;
    };
    run_lines(
        rt,
        &file[..n],
        Streams {
            out: streams.out,
            err: streams.out,
        },
    )
}
