// The order in which a group runs, by the places of the sections that check reported, as a person reads it in lent room.
#![tactic(auto)]

ghost use Rattle.std.specs.Prelude.{◌≡◌, cond, [], ◌∷◌, ◌≤◌};
ghost use Rattle.rules.specs.declared.answers.Group.TheVariants.{Install, Boot};
ghost use Rattle.rules.specs.Commands.{COMMON as Commands-as-COMMON, RUN as Commands-as-RUN};
ghost use Rattle.rules.specs.Run.{each};
ghost use Rattle.text.specs.Text.{Writes};
ghost use Rattle.depot_order.specs.Order.{Tells, end_of, is_there, if_there, parting, order_text, group_line, groups_text};

use rules::codes::{COMMON, INSTALL, LOAD, PAYLOAD_FETCH, RUN_SECTION, VALIDATE};
use rules::controller::SectionPlaces;
use text::put;
use text_names::put_section;

// The place after what was told of an order, and whether a name is in it.
// No Option: the place is needed either way.
#[derive(Clone, Copy)]
pub struct Told {
    pub to: usize,
    pub some: bool,
}

// Where the section under `key` ends; 0 says that it is not there, as in the C interface.
fn end_of(sections: &SectionPlaces, key: usize) -> usize
    requires { key ≤ Commands-as-RUN }
    ensures { result ≡ end_of sections.now key }
{
    if key < PAYLOAD_FETCH {
        return sections[1];
    }
    sections[2 * (key - PAYLOAD_FETCH + 1) + 1]
}

fn is_there(sections: &SectionPlaces, key: usize) -> bool
    requires { key ≤ Commands-as-RUN }
    ensures { result ≡ is_there sections.now key }
{
    end_of(sections, key) != 0
}

// What parts a name from that before it, or from the group.
#[tactic(auto, unfolding(crate::specs::Order::parting))]
fn put_parting(room: &mut [u8], at: usize, some: bool) -> usize
    ensures { Writes (parting some) at room result }
{
    if some {
        put(room, at, b", ")
    } else {
        put(room, at, b" ")
    }
}

fn put_name(room: &mut [u8], told: Told, key: usize) -> Told
    ensures { Tells (key ∷ []) told room.old result room.new }
{
    let a = put_parting(room, told.to, told.some);
    let b = put_section(room, a, key);
    Told { to: b, some: true }
}

// The section under `key`, if it is there.
fn put_one(room: &mut [u8], told: Told, there: bool, key: usize) -> Told
    ensures { Tells (if_there there key) told room.old result room.new }
{
    if there {
        put_name(room, told, key)
    } else {
        told
    }
}

// The same, with common before it if that is there.
fn put_turn(room: &mut [u8], told: Told, common: bool, there: bool, key: usize) -> Told
    ensures { Tells (each (if_there common Commands-as-COMMON) (if_there there key)) told room.old result room.new }
{
    if !there {
        return told;
    }
    let before = put_one(room, told, common, COMMON);
    put_name(room, before, key)
}

// Common alone, or the word for nothing.
#[tactic(auto, unfolding(crate::specs::Order::order_text))]
fn put_alone(room: &mut [u8], at: usize, common: bool) -> usize
    ensures { Writes (order_text (if_there common Commands-as-COMMON)) at room result }
{
    if !common {
        return put(room, at, b" nothing");
    }
    let none = Told {
        to: at,
        some: false,
    };
    put_name(room, none, COMMON).to
}

// What is left to tell of a group whose sections were told: common, where there was none of them.
fn put_rest(room: &mut [u8], told: Told, common: bool) -> usize
    ensures { Writes (cond told.some [] (order_text (if_there common Commands-as-COMMON))) told.to room result }
{
    if told.some {
        told.to
    } else {
        put_alone(room, told.to, common)
    }
}

fn put_install(room: &mut [u8], at: usize, sections: &SectionPlaces) -> usize
    ensures { Writes (group_line Install sections.now) at room result }
{
    let common = is_there(sections, COMMON);
    let fetch = is_there(sections, PAYLOAD_FETCH);
    let install = is_there(sections, INSTALL);
    let to = put(room, at, b"install:");
    let a = put_turn(room, Told { to, some: false }, common, fetch, PAYLOAD_FETCH);
    let b = put_turn(room, a, common, install, INSTALL);
    let c = put_rest(room, b, common);
    put(room, c, b"\n")
}

fn put_boot(room: &mut [u8], at: usize, sections: &SectionPlaces) -> usize
    ensures { Writes (group_line Boot sections.now) at room result }
{
    let common = is_there(sections, COMMON);
    let validate = is_there(sections, VALIDATE);
    let load = is_there(sections, LOAD);
    let run = is_there(sections, RUN_SECTION);
    let to = put(room, at, b"boot:");
    let a = put_turn(room, Told { to, some: false }, common, validate, VALIDATE);
    let b = put_turn(room, a, common, load, LOAD);
    let c = put_turn(room, b, common, run, RUN_SECTION);
    let d = put_rest(room, c, common);
    put(room, d, b"\n")
}

// A line for each group.
pub fn put_groups(room: &mut [u8], at: usize, sections: &SectionPlaces) -> usize
    ensures { Writes (groups_text sections.now) at room result }
{
    let a = put_install(room, at, sections);
    put_boot(room, a, sections)
}
