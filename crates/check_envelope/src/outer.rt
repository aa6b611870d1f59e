// The envelope around the manifest.
ghost use Rattle.std.specs.Prelude.{◌≡◌, ◌≤◌, length};
ghost use Rattle.rules.specs.Check as Check;
ghost use Rattle.cbor_reading.specs.Reading.{head_reading, place_of};
ghost use Rattle.check_envelope.specs.Outer.{manifest_head};

use cbor::{BYTES, MAP, NIL, read_one_of};
use cbor_reading::{Reading, item};
use check_manifest::key_at;
use rules::answers::Fault;
use rules::controller::Controller;

// The keys of an envelope, which are all that it has.
const AUTHENTICATION: usize = 1;

const MANIFEST: usize = 3;

const ENTRIES: usize = 2;

// Nil or a byte string: the place after it.
fn unread(s: &[u8], end: usize, at: usize) -> Result<usize, Fault>
    requires { end ≤ length s.now }
    ensures { result ≡ place_of (Check.unread s.now end at) }
{
    let h = read_one_of(s, end, at, NIL, BYTES)?;
    if h.kind == BYTES {
        return Ok(h.next + h.num);
    }
    Ok(h.next)
}

// The byte string that holds the manifest: where its bytes start, and how many they are.
pub(crate) fn read_outer(s: &[u8], end: usize) -> Result<Reading, Fault>
    requires { end ≤ length s.now }
    ensures { result ≡ head_reading (manifest_head s.now end) }
{
    let h = item(s, end, 0, MAP, ENTRIES, ENTRIES)?;
    let first = key_at(s, end, h.at, AUTHENTICATION)?;
    let next = unread(s, end, first)?;
    let at = key_at(s, end, next, MANIFEST)?;
    item(s, end, at, BYTES, 0, Controller::LARGEST_NUMBER)
}
