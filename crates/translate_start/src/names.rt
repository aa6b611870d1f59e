// The identifiers of the components: their records, sized and written.
ghost use Rattle.std.specs.Prelude.{◌≡◌, ◌+◌, ◌≤◌, ◌<◌, length};
ghost use Rattle.rules.specs.Bytes.{Bytes, part, InBytes};
ghost use Rattle.rules.specs.Limits.{limits};
ghost use Rattle.rules.specs.ProgramFormat.{name_size};
ghost use Rattle.rules.specs.Program.{id_bytes};
ghost use Rattle.translate_argument.specs.Argument.{Filled};
ghost use Rattle.translate_start.specs.Names.{name_records, NamesFit};

use byte_buffer::copy;
use rules::controller::Places;
use rules::program_format;
use rules::program_format::NAME_BYTES;

// How many bytes the records of the n identifiers have.
pub fn size_names(ids: &Places, n: usize) -> usize
    requires { (n ≤ limits.components) × InBytes ids.now n limits.envelope }
    ensures { (s : Bytes) → InBytes ids.now n (length s) → result ≡ length (name_records s ids.now n) }
{
    let mut sum = 0;
    for k in 0..n {
        sum += NAME_BYTES + ids[2 * k + 1] - ids[2 * k];
    }
    sum
}

// The record of the identifier of n bytes at `from`: the place after it.
fn put_name(s: &[u8], from: usize, n: usize, room: &mut [u8], to: usize) -> usize
    requires { (from + n ≤ length s.now) × (n < 256) × (to + name_size + n ≤ length room.old) }
    ensures { Filled (id_bytes (part s.now from n)) to room.old result room.new }
{
    room[to] = program_format::MARK;
    room[to + 1] = program_format::MARK_2;
    room[to + program_format::CODE] = program_format::NAME as u8;
    room[to + program_format::NAME_LENGTH] = n as u8;
    copy(s, from, n, room, to + NAME_BYTES);
    to + NAME_BYTES + n
}

// The records of the n identifiers at the places `ids` of s, written from `at` on: the place after them.
pub fn write_names(s: &[u8], ids: &Places, n: usize, room: &mut [u8], at: usize) -> usize
    requires { NamesFit s.now ids.now n room.old at }
    ensures { Filled (name_records s.now ids.now n) at room.old result room.new }
{
    let mut to = at;
    for k in 0..n {
        let from = ids[2 * k];
        to = put_name(s, from, ids[2 * k + 1] - from, room, to);
    }
    to
}
