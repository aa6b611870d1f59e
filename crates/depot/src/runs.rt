// Runs of files on described devices.
use crate::inspection::read_twice;
use buffers::{FILE_BYTES, zeroed};
use byte_buffer::is;
use depot_files::files::{beside, load, store};
use depot_files::streams::{PAGE_BYTES, Streams, fault, fault_in, fitted, print};
use depot_matches::note_matches;
use depot_messages::Message;
use depot_outcome::put_run;
use depot_run_types::Run;
use depot_runs::run_as;
use depot_status::{FAULT, run_status};
use depot_subjects::subject_of;
use depot_usage::asked_group;
use depot_words::{later_words, word_at, word_count};
use device_description::{ANSWERS_ROOM, SLOTS_ROOM, Scenario, describe};
use device_writing::put_device;
use pitvorgas::pitvorgas_translate;
use pitvorgas_answers::RunAnswer;
use rules::answers::Group;
use rules::controller::Controller;
use std::fs::Files;
use text::put;

// The notes of a run of an envelope, whose translation runs as it does.
fn note_envelope(
    envelope: &[u8],
    boot: bool,
    trace: &[u8],
    events: usize,
    slots: &[u8],
    answers: &[u8],
    notes: &mut [u8],
) {
    let mut room: [u8; FILE_BYTES] = zeroed();
    let answer = pitvorgas_translate(envelope, boot, &mut room);
    let n = fitted(&room, answer.length);
    note_matches(&room[..n], trace, events, slots, answers, notes);
}

// The notes of a run, of which the slots are those before it.
fn note_run(
    what: Run,
    bytes: &[u8],
    trace: &[u8],
    events: usize,
    slots: &[u8],
    answers: &[u8],
    notes: &mut [u8],
) {
    match what {
        Run::Install => note_envelope(bytes, false, trace, events, slots, answers, notes),
        Run::Boot => note_envelope(bytes, true, trace, events, slots, answers, notes),
        Run::Program => note_matches(bytes, trace, events, slots, answers, notes),
    }
}

// Runs the bytes on a device, and notes why image matches failed.
fn run_noted(
    what: Run,
    bytes: &[u8],
    d: Scenario,
    slots: &mut [u8],
    answers: &[u8],
    trace: &mut [u8],
    notes: &mut [u8],
) -> RunAnswer {
    let mut old = [0u8; SLOTS_ROOM];
    put(&mut old, 0, slots);
    let n = fitted(&old, slots.len());
    let answer = run_as(what, bytes, d, slots, answers, trace);
    note_run(what, bytes, trace, answer.events, &old[..n], answers, notes);
    answer
}

// Prints what a run did or why it was refused, and gives its status.
fn tell_run(
    what: Run,
    bytes: &[u8],
    answer: RunAnswer,
    slots: &[u8],
    trace: &[u8],
    notes: &[u8],
    streams: Streams,
) -> usize {
    // Before the subject: behind it the page is zeroed twice.
    let mut text: [u8; PAGE_BYTES] = zeroed();
    let subject = subject_of(what, bytes);
    let to = put_run(&mut text, 0, answer, subject, bytes, trace, notes, slots);
    print(streams, &text, to, run_status(answer.refusal, answer.end))
}

// Writes the device and slots after a run that was not refused as a description, where a file is named.
fn store_device(
    rt: &impl Files,
    then: &[u8],
    d: Scenario,
    answer: RunAnswer,
    slots: &[u8],
    status: usize,
    streams: Streams,
) -> usize {
    if then.is_empty() || answer.refusal != 0 {
        return status;
    }
    let mut text: [u8; FILE_BYTES] = zeroed();
    let to = put_device(&mut text, 0, d, answer.number, slots);
    let n = fitted(&text, to);
    store(rt, then, &text[..n], streams, status)
}

// Runs the bytes on a device, tells what happened, and writes what is left.
fn run_device(
    rt: &impl Files,
    what: Run,
    bytes: &[u8],
    d: Scenario,
    slots: &mut [u8],
    answers: &[u8],
    then: &[u8],
    streams: Streams,
) -> usize {
    let mut trace: [u8; Controller::TRACE_BYTES] = zeroed();
    let mut notes = [0u8; Controller::COMMANDS];
    let answer = run_noted(what, bytes, d, slots, answers, &mut trace, &mut notes);
    let status = tell_run(
        what,
        bytes,
        answer,
        slots,
        &trace,
        &notes,
        beside(then, streams),
    );
    store_device(rt, then, d, answer, slots, status, streams)
}

// Reads the description, and runs on the device that it describes.
fn run_described(
    rt: &impl Files,
    what: Run,
    bytes: &[u8],
    description: &[u8],
    name: &[u8],
    then: &[u8],
    streams: Streams,
) -> usize {
    let mut slots = [0u8; SLOTS_ROOM];
    let mut answers = [0u8; ANSWERS_ROOM];
    let d = describe(description, &mut slots, &mut answers);
    if let Some(refused) = d.refused {
        return fault_in(streams.err, name, description, refused);
    }
    let k = fitted(&slots, d.slots);
    let m = fitted(&answers, d.answers);
    run_device(
        rt,
        what,
        bytes,
        d,
        &mut slots[..k],
        &answers[..m],
        then,
        streams,
    )
}

fn run_bytes(
    rt: &(impl Files + Input),
    what: Run,
    bytes: &[u8],
    device: &[u8],
    then: &[u8],
    streams: Streams,
) -> usize {
    let mut description: [u8; FILE_BYTES] = zeroed();
    let Some(n) = load(rt, device, &mut description, streams.err) else {
        return FAULT;
    };
    run_described(rt, what, bytes, &description[..n], device, then, streams)
}

// The files of two names: what is run, and the description.
fn run_files(
    rt: &(impl Files + Input),
    what: Run,
    file: &[u8],
    device: &[u8],
    then: &[u8],
    streams: Streams,
) -> usize {
    if read_twice(file, device) {
        return fault(streams.err, Message::Once, b"", 0);
    }
    let mut bytes: [u8; FILE_BYTES] = zeroed();
    let Some(n) = load(rt, file, &mut bytes, streams.err) else {
        return FAULT;
    };
    run_bytes(rt, what, &bytes[..n], device, then, streams)
}

// The words behind the job and its group: a file, a description and, if there are more, `--then` and a file.
fn run_words(rt: &(impl Files + Input), what: Run, words: &[u8], streams: Streams) -> usize {
    let file = word_at(words, 0);
    let device = word_at(words, 1);
    if word_count(words) == 2 {
        return run_files(rt, what, file, device, b"", streams);
    }
    let option = word_at(words, 2);
    if !is(option, b"--then") {
        return fault(streams.err, Message::Option, option, 0);
    }
    run_files(rt, what, file, device, word_at(words, 3), streams)
}

pub(crate) fn run_file(rt: &(impl Files + Input), words: &[u8], streams: Streams) -> usize {
    let group = word_at(words, 1);
    let rest = later_words(later_words(words));
    match asked_group(group) {
        Some(Group::Install) => run_words(rt, Run::Install, rest, streams),
        Some(Group::Boot) => run_words(rt, Run::Boot, rest, streams),
        None => fault(streams.err, Message::Group, group, 0),
    }
}

pub(crate) fn run_program_file(rt: &(impl Files + Input), words: &[u8], streams: Streams) -> usize {
    run_words(rt, Run::Program, later_words(words), streams)
}
