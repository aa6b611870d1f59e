// The walk to a place, over any bytes: which entry of a part holds it.
ghost use Rattle.std.specs.Prelude.{◌≡◌, ◌-◌, eqb};
ghost use Rattle.depot_items.specs.Items.{NO_ITEM, item_at};
ghost use Rattle.depot_parts.specs.Seek.{entries as Seek·entries, items_end, item_end, key_at, entry_end, box_at, at_head};
ghost use Rattle.depot_parts.specs.Seek.{seek as Seek·seek, find as Seek·find, short as Seek·short, holds as Seek·holds, settle as Seek·settle};

use crate::parts::{LEAF, Part, Shape, child, shape_of};
use depot_items::{Item, look, want};

// How many entries are left from an entry on, and where it starts.
#[derive(Clone, Copy)]
pub struct Spot {
    pub left: usize,
    pub at: usize,
}

// An entry of a part: where the part ends, how many entries it has, and the entry.
#[derive(Clone, Copy)]
pub struct Found {
    pub end: usize,
    pub count: usize,
    pub spot: Spot,
}

#[tactic(auto, unfolding(crate::specs::Seek::entries))]
fn entries(shape: Shape, num: usize) -> usize
    ensures { result ≡ Seek·entries shape num }
{
    if shape.kind == cbor::ARRAY && shape.keyed {
        num / 2
    } else {
        num
    }
}

// The place after `count` items.
fn items_end(s: &[u8], count: usize, e: usize, at: usize) -> usize
    ensures { result ≡ items_end s.now count e at }
{
    let mut next = at;
    for _ in 0..count {
        if e <= next {
            return next;
        }
        next = look(s, e, next).after;
    }
    next
}

// And after one with what it holds.
#[tactic(auto, unfolding(crate::specs::Seek::item_end))]
fn item_end(s: &[u8], e: usize, at: usize) -> usize
    ensures { result ≡ item_end s.now e at }
{
    let i = look(s, e, at);
    match i.kind {
        cbor::ARRAY => items_end(s, i.num, e, i.next),
        cbor::MAP => {
            let keys = items_end(s, i.num, e, i.next);
            items_end(s, i.num, e, keys)
        }
        _ => i.after,
    }
}

// The key of the entry at `at`; no bytes where entries have none.
#[tactic(auto, unfolding(crate::specs::Seek::key_at))]
pub fn key_at(s: &[u8], keyed: bool, e: usize, at: usize) -> Item
    ensures { result ≡ key_at s.now keyed e at }
{
    if keyed {
        return want(s, e, at, cbor::NUMBER);
    }
    Item {
        kind: cbor::NUMBER,
        num: 0,
        next: at,
        after: at,
    }
}

#[tactic(auto, unfolding(crate::specs::Seek::entry_end))]
fn entry_end(s: &[u8], keyed: bool, e: usize, at: usize) -> usize
    ensures { result ≡ entry_end s.now keyed e at }
{
    let k = key_at(s, keyed, e, at);
    item_end(s, e, k.next)
}

// The byte string around a part; all that is left where it stands in none.
#[tactic(auto, unfolding(crate::specs::Seek::box_at))]
fn box_at(s: &[u8], boxed: bool, e: usize, at: usize) -> Item
    ensures { result ≡ box_at s.now boxed e at }
{
    if boxed {
        return want(s, e, at, cbor::BYTES);
    }
    Item {
        kind: cbor::BYTES,
        num: 0,
        next: at,
        after: e,
    }
}

// Whether the place is in a head that should be of this kind, or there is none.
#[tactic(auto, unfolding(crate::specs::Seek::at_head))]
pub fn at_head(place: usize, kind: usize, i: Item) -> bool
    ensures { result ≡ at_head place kind i }
{
    i.kind != kind || place < i.next
}

// The first of `count` entries that does not end before the place.
fn seek(s: &[u8], place: usize, keyed: bool, e: usize, count: usize, at: usize) -> Spot
    ensures { result ≡ Seek·seek s.now place keyed e count at }
{
    let mut next = at;
    for after in (0..count).rev() {
        let end = entry_end(s, keyed, e, next);
        if place <= end {
            let left = after + 1;
            return Spot { left, at: next };
        }
        next = end;
    }
    Spot { left: 0, at: next }
}

// That entry in the part at `at`, or none where the place is before all entries.
#[tactic(auto, unfolding(crate::specs::Seek::find))]
pub fn find(s: &[u8], place: usize, part: Part, e: usize, at: usize) -> Option<Found>
    ensures { result ≡ Seek·find s.now place part e at }
{
    let h = shape_of(part);
    let b = box_at(s, h.boxed, e, at);
    let i = want(s, b.after, b.next, h.kind);
    if at_head(place, h.kind, i) {
        return None;
    }
    let count = entries(h, i.num);
    Some(Found {
        end: b.after,
        count,
        spot: seek(s, place, h.keyed, b.after, count, i.next),
    })
}

fn missing(s: &[u8], e: usize, at: usize) -> bool
    ensures { result ≡ eqb (item_at s.now e at).kind NO_ITEM }
{
    look(s, e, at).kind == depot_items::NO_ITEM
}

// Whether the part at `at`, which ends at the place, lacks an item there.
fn short(s: &[u8], place: usize, depth: usize, part: Part, e: usize, at: usize) -> bool
    ensures { result ≡ Seek·short s.now place depth part e at }
{
    if depth == 0 {
        return false;
    }
    let h = shape_of(part);
    if h.kind == LEAF {
        return missing(s, e, at);
    }
    let Some(f) = find(s, place, part, e, at) else {
        return true;
    };
    match f.spot.left {
        0 => return false,
        1 => {}
        _ => return true,
    }
    let k = key_at(s, h.keyed, f.end, f.spot.at);
    at_head(place, cbor::NUMBER, k) || short(s, place, depth - 1, child(part, k.num), f.end, k.next)
}

// Whether the entry at `at` holds the place; the parts in it may be `depth` deep.
#[tactic(auto, unfolding(crate::specs::Seek::holds))]
fn holds(s: &[u8], place: usize, depth: usize, part: Part, e: usize, at: usize) -> bool
    ensures { result ≡ Seek·holds s.now place depth part e at }
{
    let h = shape_of(part);
    let k = key_at(s, h.keyed, e, at);
    place < entry_end(s, h.keyed, e, at)
        || at_head(place, cbor::NUMBER, k)
        || short(s, place, depth, child(part, k.num), e, k.next)
}

// It, or the one after it.
#[tactic(auto, unfolding(crate::specs::Seek::settle))]
pub fn settle(s: &[u8], place: usize, depth: usize, part: Part, e: usize, x: Spot) -> Spot
    ensures { result ≡ Seek·settle s.now place depth part e x }
{
    if holds(s, place, depth, part, e, x.at) {
        return x;
    }
    let h = shape_of(part);
    Spot {
        left: x.left.saturating_sub(1),
        at: entry_end(s, h.keyed, e, x.at),
    }
}
