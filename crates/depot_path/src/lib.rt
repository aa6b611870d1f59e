// Where a place stands in an envelope, in words. The walk goes over any bytes, one part into the next, as check reads them.
#![tactic(auto)]

ghost use Rattle.text.specs.Text.{Writes};
ghost use Rattle.depot_path.specs.Path.{within, path_text};

use depot_part_names::{less, put_entry, put_key, put_left_over, put_name};
use depot_parts::parts::{Part, child, shape_of};
use depot_parts::seek::{at_head, find, key_at, settle};
use rules::controller::Controller;

// The envelope, the manifest, common and its sequence; then alternatives and their sequences.
const LEVELS: usize = 4 + 2 * Controller::DEPTH;

// The path from the part at `at` on, in a container that ends at `e`; it may hold parts `depth` deep.
fn put_within(
    room: &mut [u8],
    to: usize,
    s: &[u8],
    place: usize,
    depth: usize,
    part: Part,
    e: usize,
    at: usize,
) -> usize
    ensures { Writes (within s.now place depth part e at) to room result }
{
    if depth == 0 {
        return to;
    }
    let Some(f) = find(s, place, part, e, at) else {
        return put_name(room, to, part);
    };
    let x = settle(s, place, depth - 1, part, f.end, f.spot);
    if x.left == 0 {
        return put_left_over(room, to, part);
    }
    let h = shape_of(part);
    let k = key_at(s, h.keyed, f.end, x.at);
    let n = less(f.count, x.left - 1);
    if at_head(place, cbor::NUMBER, k) {
        return put_key(room, to, part, n, k.num);
    }
    let a = put_entry(room, to, part, n, k.num);
    put_within(
        room,
        a,
        s,
        place,
        depth - 1,
        child(part, k.num),
        f.end,
        k.next,
    )
}

// The path to a place of the bytes.
pub fn put_path(room: &mut [u8], at: usize, s: &[u8], place: usize) -> usize
    ensures { Writes (path_text s.now place) at room result }
{
    put_within(room, at, s, place, LEVELS, Part::Envelope, s.len(), 0)
}
