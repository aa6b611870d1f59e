// What is told of files: check, show and list; and newer.
use buffers::{FILE_BYTES, zeroed};
use depot_files::files::{is_standard, load};
use depot_files::streams::{PAGE_BYTES, Streams, fault, print};
use depot_inspect::{View, newest_status, put_newest, put_view, view_status};
use depot_messages::Message;
use depot_status::FAULT;
use std::fs::Files;

fn view_bytes(view: View, bytes: &[u8], streams: Streams) -> usize {
    let mut text: [u8; PAGE_BYTES] = zeroed();
    let to = put_view(&mut text, view, bytes);
    print(streams, &text, to, view_status(view, bytes))
}

pub(crate) fn view_file(
    rt: &(impl Files + Input),
    view: View,
    name: &[u8],
    streams: Streams,
) -> usize {
    let mut file: [u8; FILE_BYTES] = zeroed();
    let Some(n) = load(rt, name, &mut file, streams.err) else {
        return FAULT;
    };
    view_bytes(view, &file[..n], streams)
}

fn newer_bytes(first: &[u8], second: &[u8], streams: Streams) -> usize {
    let mut text: [u8; PAGE_BYTES] = zeroed();
    let to = put_newest(&mut text, first, second);
    print(streams, &text, to, newest_status(first, second))
}

fn newer_than(rt: &(impl Files + Input), first: &[u8], other: &[u8], streams: Streams) -> usize {
    let mut second: [u8; FILE_BYTES] = zeroed();
    let Some(n) = load(rt, other, &mut second, streams.err) else {
        return FAULT;
    };
    newer_bytes(first, &second[..n], streams)
}

// Whether both names stand for standard input, which has one reader.
pub(crate) fn read_twice(name: &[u8], other: &[u8]) -> bool {
    is_standard(name) && is_standard(other)
}

pub(crate) fn newer_file(
    rt: &(impl Files + Input),
    name: &[u8],
    other: &[u8],
    streams: Streams,
) -> usize {
    if read_twice(name, other) {
        return fault(streams.err, Message::Once, b"", 0);
    }
    let mut first: [u8; FILE_BYTES] = zeroed();
    let Some(n) = load(rt, name, &mut first, streams.err) else {
        return FAULT;
    };
    newer_than(rt, &first[..n], other, streams)
}
