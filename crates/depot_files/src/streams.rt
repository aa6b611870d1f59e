// What a command writes: its answer on one stream, messages on another.
ghost use Rattle.std.specs.Prelude.{◌≡◌};
ghost use Rattle.std.specs.Counts.{IsPrefixLen};
ghost use Rattle.depot_status.specs.Status.{FAULT as Status-as-FAULT, Told};

use buffers::{FILE_BYTES, zeroed};
use depot_messages::{Message, put_message, put_named};
use depot_status::FAULT;
use device_faults::put_fault;
use std::io;
use std::io::{Error, ErrorKind, Stderr, Stdout};

#[derive(Clone, Copy)]
pub enum Stream {
    Output(Stdout),
    Error(Stderr),
}

impl Stream {
    fn write_all(self, bytes: &[u8]) -> io::Result<()> {
        match self {
            Stream::Output(out) => out.write_all(bytes),
            Stream::Error(err) => err.write_all(bytes),
        }
    }
}

#[derive(Clone, Copy)]
pub struct Streams {
    pub out: Stream,
    pub err: Stream,
}

// Room for a text: that of the longest program that is well formed, of 46,635 bytes, has some hundred thousand. A longer one, of a file
// that is refused, is cut.
pub const PAGE_BYTES: usize = 262144;

// The length of a page, as a number.
pub fn page_length() -> usize
    ensures { result ≡ 262144 }
{
    PAGE_BYTES
}

// How much of a page is text, if that is its first `to` bytes.
pub fn fitted(page: &[u8], to: usize) -> usize
    ensures { IsPrefixLen result page.now }
{
    to.min(page.len())
}

// Writes the first `to` bytes of a page.
fn write(stream: Stream, page: &[u8], to: usize) -> io::Result<()> {
    let n = fitted(page, to);
    stream.write_all(&page[..n])
}

// The system's number for what is no name of a file.
const NO_NAME: usize = 22;

// Why a call failed, as the system numbers it; 0 where it has no number.
fn error_number(error: Error) -> usize {
    match error.raw_os_error() {
        Some(code) => usize::try_from(code).unwrap_or(0),
        None if error.kind() == ErrorKind::InvalidInput => NO_NAME,
        None => 0,
    }
}

// Says what is wrong, and gives the status of a fault.
pub fn fault(err: Stream, message: Message, word: &[u8], n: usize) -> usize
    ensures { result ≡ Status-as-FAULT }
{
    let mut text: [u8; FILE_BYTES] = zeroed();
    let to = put_message(&mut text, 0, message, word, n);
    let _ = write(err, &text, to);
    FAULT
}

// Says why a file could not be opened, read, made or written.
pub(crate) fn fault_of(err: Stream, name: &[u8], error: Error) -> usize
    ensures { result ≡ Status-as-FAULT }
{
    fault(err, Message::Error, name, error_number(error))
}

// Says why a line of a description is not understood.
pub fn fault_in(err: Stream, name: &[u8], description: &[u8], line: usize) -> usize
    ensures { result ≡ Status-as-FAULT }
{
    let mut text: [u8; FILE_BYTES] = zeroed();
    let at = put_named(&mut text, 0, name);
    let to = put_fault(&mut text, at, description, line);
    let _ = write(err, &text, to);
    FAULT
}

// Writes an answer, and gives the status of the command; a stream that takes no more is told.
pub fn print(streams: Streams, page: &[u8], to: usize, status: usize) -> usize
    ensures { Told status result }
{
    match write(streams.out, page, to) {
        Ok(()) => status,
        Err(error) => fault_of(streams.err, b"standard output", error),
    }
}

// The same for a message that is the answer.
pub fn tell(streams: Streams, message: Message, word: &[u8], n: usize, status: usize) -> usize
    ensures { Told status result }
{
    let mut text: [u8; FILE_BYTES] = zeroed();
    let to = put_message(&mut text, 0, message, word, n);
    print(streams, &text, to, status)
}
