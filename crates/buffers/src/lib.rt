// Buffers of fixed size, and a read that fills one.
#![tactic(auto)]

ghost use Rattle.std.specs.Prelude.{◌≡◌, ℕ, ◌<◌, length, take, replicate, IfOk, OnErr};
ghost use Rattle.std.specs.Io.{ReadsAtMost};
ghost use Rattle.std.specs.Io.KnownBytes.{Consumes, IsAtEnd};

use std::io;
use std::io::Read;

// Room for an argument of the command line, or a line.
pub const LINE_BYTES: usize = 4096;

// Room for a file.
pub const FILE_BYTES: usize = 65536;

// The lengths of the two rooms, as numbers.
pub fn lengths() -> (usize, usize)
    ensures { result ≡ (4096, 65536) }
{
    (LINE_BYTES, FILE_BYTES)
}

// An array of zeros, as long as its caller says.
pub fn zeroed<const N: usize>() -> [u8; N]
    ensures zeros { result ≡ replicate N 0 }
    ensures size { N ≡ length result }
{
    [0; N]
}

// Reads until the buffer is full or the input ends, and gives how many bytes it put at the start of the buffer. Where a read
// fails, what was read before stands there.
pub fn read_full<R: Read>(reader: &mut R, buf: &mut [u8]) -> io::Result<usize>
    ensures bound { ReadsAtMost result buf.new }
    ensures bytes { IfOk result (λ n. Consumes (R.remaining reader.old) (R.remaining reader.new) (take n buf.new)) }
    ensures end { IfOk result (λ n. n < length buf.old → IsAtEnd (R.remaining reader.new)) }
    ensures err { OnErr result ((n : ℕ) × Consumes (R.remaining reader.old) (R.remaining reader.new) (take n buf.new)) }
{
    let mut done = 0;
    // A while: a turn goes on by as many bytes as its read gave.
    while done < buf.len() {
        let n = reader.read(&mut buf[done..])?;
        if n == 0 {
            break;
        }
        done += n;
    }
    Ok(done)
}
