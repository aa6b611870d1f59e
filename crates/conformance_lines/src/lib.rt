// The lines of newer, translate and a head.
#![tactic(auto)]

ghost use Rattle.text.specs.Text.{Writes};
ghost use Rattle.conformance_lines.specs.Lines.{newer_text, program_text, translated_text, head_text};

use cbor_heads::Head;
use conformance_format::{NEWLINE, put_bytes, put_format, put_refused};
use pitvorgas_answers::{NewerAnswer, TranslateAnswer};
use rules::answers::Fault;
use text::{least, put, put_byte};

pub fn put_newer(room: &mut [u8], at: usize, answer: NewerAnswer) -> usize
    ensures { Writes (newer_text answer) at room result }
{
    put_format(
        room,
        at,
        b"(%, %, %)\n",
        &[answer.second, answer.from, answer.to],
    )
}

fn put_program(room: &mut [u8], at: usize, program: &[u8]) -> usize
    ensures { Writes (program_text program.now) at room result }
{
    let a = put(room, at, b"program ");
    let b = put_bytes(room, a, program);
    put_byte(room, b, NEWLINE)
}

pub fn put_translated(room: &mut [u8], at: usize, answer: TranslateAnswer, lent: &[u8]) -> usize
    ensures { Writes (translated_text answer lent.now) at room result }
{
    if answer.refusal == 0 {
        let n = least(answer.length, lent.len());
        return put_program(room, at, &lent[..n]);
    }
    put_refused(room, at, answer.refusal, answer.place)
}

// A head, and how many bytes are left after it; of a refused head, the refusal alone.
pub fn put_head(room: &mut [u8], at: usize, head: Result<Head, Fault>, left: usize) -> usize
    ensures { Writes (head_text head left) at room result }
{
    match head {
        Ok(h) => put_format(room, at, b"head % % % %\n", &[h.kind, h.num, h.next, left]),
        Err(f) => put_refused(room, at, f.refusal.number(), f.at),
    }
}
