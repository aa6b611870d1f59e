// What a description's words write, as bytes in lent room.
ghost use Rattle.std.specs.Prelude.{◌≡◌, ◌%◌, replicate};
ghost use Rattle.rules.specs.Bytes.{be4};
ghost use Rattle.rules.specs.Bytes.{put as Bytes·put};
ghost use Rattle.rules.specs.Limits.{limits};
ghost use Rattle.text.specs.Text.{Writes};
ghost use Rattle.device_text.specs.Words as Words;
ghost use Rattle.device_slots.specs.SlotText as Rule;

use crate::shape::status;
use byte_buffer::is;
use device_text::read::{decimal, digit};
use device_text::{rest, word};
use rules::controller::{Controller, Sixteen};
use rules::slot_format::{IMAGE_BYTES, SIZE};
use text::{put_byte, put_times};

// Size and digest: an image without its first byte.
const CONTENT: usize = IMAGE_BYTES - SIZE;

fn low(n: usize) -> u8
    ensures { result ≡ n % 256 }
{
    (n % 256) as u8
}

// A number in four bytes.
fn put_four(room: &mut [u8], at: usize, n: usize) -> usize
    ensures { Writes (be4 n) at room result }
{
    let a = put_byte(room, at, low(n / 16777216));
    let b = put_byte(room, a, low(n / 65536));
    let c = put_byte(room, b, low(n / 256));
    put_byte(room, c, low(n))
}

// The byte of two digits.
fn pair(a: u8, b: u8) -> u8
    ensures { result ≡ Words.pair a b }
{
    digit(a).unwrap_or(0) * 16 + digit(b).unwrap_or(0)
}

// The bytes that a word writes in hexadecimal.
fn put_bytes(room: &mut [u8], at: usize, w: &[u8]) -> usize
    ensures { Writes (Words.bytes w.now) at room result }
{
    let mut to = at;
    for i in 0..w.len() / 2 {
        to = put_byte(room, to, pair(w[i * 2], w[i * 2 + 1]));
    }
    to
}

// A vendor or a class.
pub fn sixteen(w: &[u8]) -> Sixteen
    ensures { result ≡ Bytes·put (replicate limits.class 0) 0 (Words.bytes w.now) }
{
    let mut b = [0u8; Controller::CLASS_BYTES];
    put_bytes(&mut b, 0, w);
    b
}

// An image: size and digest, which may be left out.
fn put_image(room: &mut [u8], at: usize, t: &[u8]) -> usize
    ensures { Writes (Rule.image t.now) at room result }
{
    if t.is_empty() {
        return put_times(room, at, 0, CONTENT);
    }
    let a = put_four(room, at, decimal(word(t)).unwrap_or(0));
    put_bytes(room, a, rest(t))
}

// An identifier's length, and the identifier in as many bytes as a slot has for it.
fn put_identifier(room: &mut [u8], at: usize, w: &[u8]) -> usize
    ensures { Writes (Rule.identifier w.now) at room result }
{
    let n = w.len() / 2;
    let a = put_byte(room, at, low(n));
    let b = put_bytes(room, a, w);
    if Controller::IDENTIFIER_BYTES < n {
        return b;
    }
    put_times(room, b, 0, Controller::IDENTIFIER_BYTES - n)
}

fn presence(w: &[u8]) -> u8
    ensures { result ≡ Rule.presence w.now }
{
    u8::from(is(w, b"present"))
}

pub fn put_slot(room: &mut [u8], at: usize, t: &[u8]) -> usize
    ensures { Writes (Rule.slot t.now) at room result }
{
    let a = put_identifier(room, at, word(t));
    let t2 = rest(t);
    let b = put_four(room, a, decimal(word(t2)).unwrap_or(0));
    let t3 = rest(t2);
    let c = put_byte(room, b, presence(word(t3)));
    put_image(room, c, rest(t3))
}

pub fn put_answer(room: &mut [u8], at: usize, t: &[u8]) -> usize
    ensures { Writes (Rule.answer t.now) at room result }
{
    let a = put_byte(room, at, low(status(word(t)).unwrap_or(0)));
    put_image(room, a, rest(t))
}
