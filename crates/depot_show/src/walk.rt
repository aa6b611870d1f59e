// Commands and sequences of any bytes. Where a code, a key, a string or a sequence is not there, a mark stands for it, and the walk goes on
// after its container.
ghost use Rattle.std.specs.Prelude.{◌≡◌};
ghost use Rattle.rules_kinds.specs.Kinds.{kind_of, is_sequence};
ghost use Rattle.depot_show.specs.Shown.{Shows, stopped};
ghost use Rattle.depot_show.specs.Shown.{parameters_shown, nested_shown, alternatives_shown, command_shown, commands_shown, sequence_shown};

use depot_items::line::{
    NEWLINE, put_alternative, put_argument, put_margin, put_parameter, put_title,
};
use depot_items::{look, want};
use rules_kinds::argument_of;
use text::{put, put_byte};

// The place after what was shown, and the place in the room after its text.
#[derive(Clone, Copy)]
pub struct Put {
    pub next: usize,
    pub to: usize,
}

// For a sequence that is not there.
fn put_stop(room: &mut [u8], to: usize, depth: usize, e: usize) -> Put
    ensures { Shows (stopped depth e) to room.old result room.new }
{
    let a = put_margin(room, to, 8, depth);
    let b = put(room, a, b"?");
    let c = put_byte(room, b, NEWLINE);
    Put { next: e, to: c }
}

// `count` parameters, each on its line.
fn put_parameters(
    room: &mut [u8],
    to: usize,
    s: &[u8],
    depth: usize,
    e: usize,
    at: usize,
    count: usize,
) -> Put
    ensures { Shows (parameters_shown s.now depth count e at) to room.old result room.new }
{
    let mut next = at;
    let mut end = to;
    for _ in 0..count {
        if e <= next {
            return Put { next, to: end };
        }
        let key = want(s, e, next, cbor::NUMBER);
        let v = look(s, e, key.next);
        end = put_parameter(room, end, s, depth, key.num, v);
        next = v.after;
    }
    Put { next, to: end }
}

// The sequence in the byte string at `at`.
#[cycle(put_alternatives_put_command_put_commands_put_nested_put_sequence)]
fn put_nested(room: &mut [u8], to: usize, s: &[u8], depth: usize, e: usize, at: usize) -> Put
    ensures { Shows (nested_shown s.now (sequence_shown s.now depth) e at) to room.old result room.new }
{
    let b = want(s, e, at, cbor::BYTES);
    let r = put_sequence(room, to, s, depth, b.after, b.next);
    Put {
        next: b.after,
        to: r.to,
    }
}

#[cycle(put_alternatives_put_command_put_commands_put_nested_put_sequence)]
fn put_alternatives(
    room: &mut [u8],
    to: usize,
    s: &[u8],
    depth: usize,
    e: usize,
    at: usize,
    count: usize,
) -> Put
    ensures { Shows (alternatives_shown s.now (sequence_shown s.now depth) depth count count e at) to room.old result room.new }
{
    let mut next = at;
    let mut end = to;
    for n in 0..count {
        if e <= next {
            return Put { next, to: end };
        }
        let line = put_alternative(room, end, depth, n + 1);
        let a = put_nested(room, line, s, depth, e, next);
        next = a.next;
        end = a.to;
    }
    Put { next, to: end }
}

// Whether a command's argument is one sequence.
fn holds_sequence(code: usize) -> bool
    ensures { result ≡ is_sequence (kind_of code) }
{
    rules_kinds::holds_sequence(argument_of(code))
}

// The command at `at`; the sequences that it holds may be `depth` deep.
#[cycle(put_alternatives_put_command_put_commands_put_nested_put_sequence)]
fn put_command(room: &mut [u8], to: usize, s: &[u8], depth: usize, e: usize, at: usize) -> Put
    ensures { Shows (command_shown s.now (sequence_shown s.now depth) depth e at) to room.old result room.new }
{
    let c = want(s, e, at, cbor::NUMBER);
    let i = look(s, e, c.next);
    let code = c.num;
    let title = put_title(room, to, depth, at, code);
    if holds_sequence(code) {
        let below = put_byte(room, title, NEWLINE);
        return put_nested(room, below, s, depth, e, c.next);
    }
    let argument = put_argument(room, title, s, i);
    let line = put_byte(room, argument, NEWLINE);
    match i.kind {
        cbor::ARRAY => put_alternatives(room, line, s, depth, e, i.next, i.num),
        cbor::MAP => put_parameters(room, line, s, depth, e, i.next, i.num),
        _ => Put {
            next: i.after,
            to: line,
        },
    }
}

#[cycle(put_alternatives_put_command_put_commands_put_nested_put_sequence)]
fn put_commands(
    room: &mut [u8],
    to: usize,
    s: &[u8],
    depth: usize,
    e: usize,
    at: usize,
    count: usize,
) -> Put
    ensures { Shows (commands_shown s.now (sequence_shown s.now depth) depth count e at) to room.old result room.new }
{
    let mut next = at;
    let mut end = to;
    for _ in 0..count {
        if e <= next {
            return Put { next, to: end };
        }
        let c = put_command(room, end, s, depth, e, next);
        next = c.next;
        end = c.to;
    }
    Put { next, to: end }
}

// The sequence at `at`, in a container that ends at `e`; it and those in it may be `depth` deep.
#[cycle(put_alternatives_put_command_put_commands_put_nested_put_sequence)]
pub(crate) fn put_sequence(
    room: &mut [u8],
    to: usize,
    s: &[u8],
    depth: usize,
    e: usize,
    at: usize,
) -> Put
    ensures { Shows (sequence_shown s.now depth e at) to room.old result room.new }
{
    if depth == 0 {
        return put_stop(room, to, 0, e);
    }
    let h = want(s, e, at, cbor::ARRAY);
    if h.kind != cbor::ARRAY {
        return put_stop(room, to, depth - 1, e);
    }
    put_commands(room, to, s, depth - 1, e, h.next, h.num / 2)
}
