// Items of any bytes: where none stands whole, an item of no kind that ends with its container.
#![tactic(auto)]

ghost use Rattle.std.specs.Prelude.{◌≡◌, ◌⊎◌, ◌≤◌};
ghost use Rattle.rules.specs.Cbor.{BYTES, TEXT};
ghost use Rattle.depot_items.specs.Items.{nothing as Items·nothing, held, item_at, item_of};

pub mod line;

use cbor_reader::head_at;

// The kind of no item: no kind of cbor's. An `Option<Item>` is no plainer: a walk goes on after an item that is not there, where its
// container ends, so each reader would have to say that end at `None`.
pub const NO_ITEM: usize = 31;

// The kind of an item, its number, the place after its head, and the one after it; of an array or a map, those are one.
#[derive(Clone, Copy)]
pub struct Item {
    pub kind: usize,
    pub num: usize,
    pub next: usize,
    pub after: usize,
}

fn nothing(e: usize) -> Item
    ensures { result ≡ Items·nothing e }
{
    Item {
        kind: NO_ITEM,
        num: 0,
        next: e,
        after: e,
    }
}

// A string whose bytes lie in the container that ends at `e`.
fn string(e: usize, kind: usize, num: usize, next: usize) -> Item
    requires { ((kind ≡ BYTES) ⊎ (kind ≡ TEXT)) × (next ≤ e) }
    ensures { result ≡ held e (record { kind = kind; num = num; next = next }) }
{
    if e - next < num {
        return nothing(e);
    }
    Item {
        kind,
        num,
        next,
        after: next + num,
    }
}

// An item whose head lies in the container that ends at `e`.
fn whole(e: usize, kind: usize, num: usize, next: usize) -> Item
    requires { next ≤ e }
    ensures { result ≡ held e (record { kind = kind; num = num; next = next }) }
{
    match kind {
        cbor::BYTES | cbor::TEXT => string(e, kind, num, next),
        _ => Item {
            kind,
            num,
            next,
            after: next,
        },
    }
}

// The item at `at`, in a container that ends at `e`: a reader of the bytes before `e` reads its head.
pub fn look(s: &[u8], e: usize, at: usize) -> Item
    ensures { result ≡ item_at s.now e at }
{
    if s.len() < e {
        return nothing(e);
    }
    match head_at(&s[..e], at) {
        Ok(h) => whole(e, h.kind, h.num, h.next),
        Err(_) => nothing(e),
    }
}

// The same, of a wanted kind.
pub fn want(s: &[u8], e: usize, at: usize, kind: usize) -> Item
    ensures { result ≡ item_of s.now e at kind }
{
    let i = look(s, e, at);
    if i.kind == kind { i } else { nothing(e) }
}
