// The components of a program.
ghost use Rattle.std.specs.Prelude.{◌≡◌, ◌+◌, ◌≤◌, IfSome, length, get_or};
ghost use Rattle.rules.specs.ProgramFormat.{name_size, length_from};
ghost use Rattle.text.specs.Text.{Writes};
ghost use Rattle.depot_argument_lines.specs.Items.{sized};
ghost use Rattle.depot_listing.specs.Listing.{component_size, component_text, components_text, after_components};

use byte_buffer::wide;
use depot_argument_lines::size_in;
use depot_identifiers::put_identifier;
use rules::program_format::{NAME_BYTES, NAME_LENGTH};
use text::put;
use text_pieces::put_labelled;

// How long the component at the start of the bytes is, if one lies there.
pub fn size_of(s: &[u8]) -> Option<usize>
    ensures size { result ≡ sized (component_size s.now) }
    ensures within { IfSome result (λ size. size ≤ length s.now) }
{
    if s.len() < NAME_BYTES {
        return None;
    }
    size_in(s, NAME_BYTES, wide(s[NAME_LENGTH]))
}

fn put_component(room: &mut [u8], at: usize, n: usize, s: &[u8]) -> usize
    requires { name_size + get_or s.now length_from 0 ≤ length s.now }
    ensures { Writes (component_text n s.now) at room result }
{
    let a = put_labelled(room, at, b"component ", n);
    let b = put(room, a, b"  ");
    let end = NAME_BYTES + wide(s[NAME_LENGTH]);
    let c = put_identifier(room, b, &s[NAME_BYTES..end]);
    put(room, c, b"\n")
}

pub(crate) fn put_components(room: &mut [u8], at: usize, s: &[u8], count: usize) -> usize
    ensures { Writes (components_text count s.now) at room result }
{
    let mut to = at;
    let mut rest = s;
    for n in 0..count {
        let Some(size) = size_of(rest) else {
            return put(room, to, b"?\n");
        };
        to = put_component(room, to, n, rest);
        rest = &rest[size..];
    }
    to
}

// What follows the components, nothing if one is missing.
pub fn after_components(s: &[u8], count: usize) -> &[u8]
    ensures { result.now ≡ after_components count s.now }
{
    let mut rest = s;
    for _ in 0..count {
        let Some(size) = size_of(rest) else {
            return &[];
        };
        rest = &rest[size..];
    }
    rest
}
