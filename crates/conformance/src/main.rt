// Reads cases from standard input to its end, and writes the line of each to standard output. A case is its length in two bytes
// and that many bytes.
#![tactic(auto)]

use buffers::{FILE_BYTES, read_full, zeroed};
use byte_buffer::two;
use std::io;
use std::io::Read;

// Room for any line: a program of 65,535 bytes in hexadecimal, and the words around it.
const ANSWER_BYTES: usize = 140000;

const _: () = prove!(ANSWER_BYTES == 140000);

// Writes the line of a case.
fn write_line(rt: &impl Print, case: &[u8]) -> io::Result<()> {
    let mut line: [u8; ANSWER_BYTES] = zeroed();
    let to = conformance_cases::answer(case, &mut line);
    rt.write_all(&line[..to])
}

// Reads a case and answers it. One that the input cuts short is answered as an empty one is.
fn answer_case(rt: &impl Print, input: &mut impl Read, case: &mut [u8]) -> io::Result<()> {
    let got = read_full(input, case)?;
    if got < case.len() {
        return write_line(rt, b"");
    }
    write_line(rt, case)
}

// Answers the next case; false at the end of the input.
fn answer_next(rt: &impl Print, input: &mut impl Read) -> io::Result<bool> {
    let mut head = [0u8; 2];
    if read_full(input, &mut head)? == 0 {
        return Ok(false);
    }
    let n = two(&head, 0);
    let mut case: [u8; FILE_BYTES] = zeroed();
    answer_case(rt, input, &mut case[..n])?;
    Ok(true)
}

// Nothing says that the input ends, so the loop counts to a number that no input reaches.
fn main(rt: HostRuntime) -> io::Result<()> {
    let mut input = rt.reader();
    for _ in 0..u64::MAX {
        if !answer_next(&rt, &mut input)? {
            break;
        }
    }
    Ok(())
}
