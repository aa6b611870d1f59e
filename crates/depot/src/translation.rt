// Translation of a file into a new file.
use buffers::{FILE_BYTES, LINE_BYTES, zeroed};
use depot_files::files::{beside, load, store};
use depot_files::streams::{PAGE_BYTES, Streams, fault, fitted, print};
use depot_messages::Message;
use depot_refusals::put_refused;
use depot_report::put_translated;
use depot_status::{DONE, FAULT, REFUSED};
use depot_usage::asked_group;
use depot_words::word_at;
use pitvorgas::pitvorgas_translate;
use rules::answers::Group;
use std::fs::Files;

const GROUP: usize = 1;

const FILE: usize = 2;

const OUT: usize = 3;

fn tell_refused(envelope: &[u8], refusal: usize, place: usize, streams: Streams) -> usize {
    let mut text: [u8; PAGE_BYTES] = zeroed();
    let to = put_refused(&mut text, 0, refusal, place, envelope);
    print(streams, &text, to, REFUSED)
}

fn tell_translated(length: usize, streams: Streams) -> usize {
    let mut text: [u8; LINE_BYTES] = zeroed();
    let to = put_translated(&mut text, 0, length);
    print(streams, &text, to, DONE)
}

fn store_program(rt: &impl Files, program: &[u8], out: &[u8], streams: Streams) -> usize {
    let status = store(rt, out, program, streams, DONE);
    if status != DONE {
        return status;
    }
    tell_translated(program.len(), beside(out, streams))
}

// The program of an envelope goes to the file; a refusal is told, and no file is made.
fn translate_bytes(
    rt: &impl Files,
    envelope: &[u8],
    boot: bool,
    out: &[u8],
    streams: Streams,
) -> usize {
    let mut room: [u8; FILE_BYTES] = zeroed();
    let answer = pitvorgas_translate(envelope, boot, &mut room);
    if answer.refusal != 0 {
        return tell_refused(envelope, answer.refusal, answer.place, beside(out, streams));
    }
    let n = fitted(&room, answer.length);
    store_program(rt, &room[..n], out, streams)
}

fn translate_load(rt: &(impl Files + Input), words: &[u8], boot: bool, streams: Streams) -> usize {
    let mut file: [u8; FILE_BYTES] = zeroed();
    let Some(n) = load(rt, word_at(words, FILE), &mut file, streams.err) else {
        return FAULT;
    };
    translate_bytes(rt, &file[..n], boot, word_at(words, OUT), streams)
}

pub(crate) fn translate_file(rt: &(impl Files + Input), words: &[u8], streams: Streams) -> usize {
    let group = word_at(words, GROUP);
    match asked_group(group) {
        Some(Group::Install) => translate_load(rt, words, false, streams),
        Some(Group::Boot) => translate_load(rt, words, true, streams),
        None => fault(streams.err, Message::Group, group, 0),
    }
}
