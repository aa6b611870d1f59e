// Lent bytes: big-endian numbers read and put, parts compared and copied.
#![tactic(auto)]

ghost use Rattle.std.specs.Prelude.{◌≡◌, ◌+◌, ◌≤◌, ◌<◌, length};
ghost use Rattle.rules.specs.Bytes.{part, put, two_at, four_at, be2, be4, same};

// One byte.
pub fn wide(x: u8) -> usize
    ensures { (result ≡ x) × (result < 256) }
{
    usize::from(x)
}

// Two bytes, and four.
pub fn two(s: &[u8], at: usize) -> usize
    requires { at + 2 ≤ length s.now }
    ensures { (result ≡ two_at s.now at) × (result < 65536) }
{
    wide(s[at]) * 256 + wide(s[at + 1])
}

pub fn four(s: &[u8], at: usize) -> usize
    requires { at + 4 ≤ length s.now }
    ensures { (result ≡ four_at s.now at) × (result < 4294967296) }
{
    two(s, at) * 65536 + two(s, at + 2)
}

// The number n in two bytes, and in four, over those of `room` from `at` on.
pub fn put_u16(room: &mut [u8], at: usize, n: usize)
    requires { at + 2 ≤ length room.old }
    ensures { room.new ≡ put room.old at (be2 n) }
{
    room[at] = (n / 256 % 256) as u8;
    room[at + 1] = (n % 256) as u8;
}

pub fn put_u32(room: &mut [u8], at: usize, n: usize)
    requires { at + 4 ≤ length room.old }
    ensures { room.new ≡ put room.old at (be4 n) }
{
    room[at] = (n / 16777216 % 256) as u8;
    room[at + 1] = (n / 65536 % 256) as u8;
    put_u16(room, at + 2, n);
}

// Whether the n bytes of a from i on are those of b from j on. It always goes through all of them, which is faster than an early exit.
pub fn equal(a: &[u8], i: usize, b: &[u8], j: usize, n: usize) -> bool
    requires { (i + n ≤ length a.now) × (j + n ≤ length b.now) }
    ensures { result ≡ same (part a.now i n) (part b.now j n) }
{
    let mut same = true;
    for k in 0..n {
        if a[i + k] != b[j + k] {
            same = false;
        }
    }
    same
}

// The n bytes of s from `from` on, put over those of `room` from `to` on. One after the other: copy_from_slice of a length that is not
// constant calls memmove, and the library for C needs nothing from outside but memset.
pub fn copy(s: &[u8], from: usize, n: usize, room: &mut [u8], to: usize)
    requires { (from + n ≤ length s.now) × (to + n ≤ length room.old) }
    ensures { room.new ≡ put room.old to (part s.now from n) }
{
    for i in 0..n {
        room[to + i] = s[from + i];
    }
}

// Whether a is b.
#[tactic(auto, using(rules::proofs::SameLaws::same_lengths))]
pub fn is(a: &[u8], b: &[u8]) -> bool
    ensures { result ≡ same a.now b.now }
{
    a.len() == b.len() && equal(a, 0, b, 0, a.len())
}
