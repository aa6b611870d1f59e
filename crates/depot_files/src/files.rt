// Files that the command line names; `-` is standard input, or standard output.
ghost use Rattle.std.specs.Prelude.{◌≡◌, IfOk, IfSome};
ghost use Rattle.std.specs.Counts.{IsPrefixLen};
ghost use Rattle.rules.specs.Bytes.{same};
ghost use Rattle.text.specs.Text.{ascii};
ghost use Rattle.depot_status.specs.Status.{Told};
ghost use Rattle.depot_files.specs.Files.{report_streams};
ghost use Rattle.depot_files.specs.Reads.{ReadsWhole};

use crate::streams::{Stream, Streams, fault, fault_of, print};
use buffers::read_full;
use byte_buffer::is;
use depot_messages::Message;
use std::fs::{Files, OpenOptions};
use std::io::{Error, ErrorKind, Read, Write};
use std::{fs, io};

// Whether a name stands for standard input or output.
pub fn is_standard(name: &[u8]) -> bool
    ensures { result ≡ same name.now (ascii "-") }
{
    is(name, b"-")
}

// The bytes of the longest name that the system takes, with the one that ends it, and its number for a longer one.
const PATH_BYTES: usize = 4096;

const LONG_NAME: i32 = 36;

// A name as text, which std takes the names of files to be.
fn path_of(name: &[u8]) -> io::Result<&str> {
    if name.len() >= PATH_BYTES {
        return Err(Error::from_raw_os_error(LONG_NAME));
    }
    str::from_utf8(name).map_err(|_| Error::from(ErrorKind::InvalidInput))
}

// How many bytes an open file has; none if it goes on behind the buffer.
fn read_whole<R: Read>(file: &mut R, buf: &mut [u8]) -> io::Result<Option<usize>>
    ensures bound { IfOk result (λ found. IfSome found (λ n. IsPrefixLen n buf.new)) }
    ensures bytes { IfOk result (ReadsWhole (R.remaining file.old) buf.new) }
{
    let n = read_full(file, buf)?;
    let mut next = [0u8; 1];
    if read_full(file, &mut next)? > 0 {
        return Ok(None);
    }
    Ok(Some(n))
}

// The same of the file of that name.
fn read_named(rt: &(impl Files + Input), name: &[u8], buf: &mut [u8]) -> io::Result<Option<usize>>
    ensures { IfOk result (λ found. IfSome found (λ n. IsPrefixLen n buf.new)) }
{
    if is_standard(name) {
        return read_whole(&mut rt.reader(), buf);
    }
    let mut file = fs::open(rt, path_of(name)?)?;
    read_whole(&mut file, buf)
}

// How many bytes the file of that name has, at the start of the buffer; none where it cannot be read, which is told.
pub fn load(rt: &(impl Files + Input), name: &[u8], buf: &mut [u8], err: Stream) -> Option<usize>
    ensures { IfSome result (λ n. IsPrefixLen n buf.new) }
{
    match read_named(rt, name, buf) {
        Ok(Some(n)) => return Some(n),
        Ok(None) => fault(err, Message::Long, name, buf.len()),
        Err(error) => fault_of(err, name, error),
    };
    None
}

// Makes a file of the bytes; one that cannot be written is removed.
fn create(rt: &impl Files, name: &[u8], bytes: &[u8]) -> io::Result<()> {
    let path = path_of(name)?;
    let mut file = OpenOptions::new()
        .write(true)
        .create_new(true)
        .open(rt, path)?;
    let written = file.write_all(bytes);
    if written.is_err() {
        let _ = fs::remove_file(rt, path);
    }
    written
}

// Writes a new file, or none: a file that is there already is left as it is.
fn store_new(rt: &impl Files, name: &[u8], bytes: &[u8], err: Stream, status: usize) -> usize
    ensures { Told status result }
{
    match create(rt, name, bytes) {
        Ok(()) => status,
        Err(error) => fault_of(err, name, error),
    }
}

// The same, or standard output; the status is that of the command so far.
pub fn store(rt: &impl Files, name: &[u8], bytes: &[u8], streams: Streams, status: usize) -> usize
    ensures { Told status result }
{
    if is_standard(name) {
        return print(streams, bytes, bytes.len(), status);
    }
    store_new(rt, name, bytes, streams.err, status)
}

// Where the report goes beside a file that is written: not to standard output where the file does.
#[tactic(auto, unfolding(crate::specs::Files::report_streams))]
pub fn beside(name: &[u8], streams: Streams) -> Streams
    ensures { result ≡ report_streams name.now streams }
{
    let err = streams.err;
    if is_standard(name) {
        return Streams { out: err, err };
    }
    streams
}
