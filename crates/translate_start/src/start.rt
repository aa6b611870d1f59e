// The start of a program, written to lent room.
ghost use Rattle.std.specs.Prelude.{◌≡◌, ◌≤◌, ◌<◌, length};
ghost use Rattle.rules.specs.Bytes.{put};
ghost use Rattle.rules.specs.ProgramFormat.{start_size};
ghost use Rattle.translate_start.specs.Start.{start_bytes};

use byte_buffer::{put_u16, put_u32};
use rules::answers::Group;
use rules::program_format;

// Mark, code of a start, group, sequence number in 4, component count, record count in 2.
pub fn put_start(room: &mut [u8], group: Group, number: usize, components: usize, records: usize)
    requires { (start_size ≤ length room.old) × (components < 256) }
    ensures { room.new ≡ put room.old 0 (start_bytes group number components records) }
{
    room[0] = program_format::MARK;
    room[1] = program_format::MARK_2;
    room[program_format::CODE] = program_format::START as u8;
    room[program_format::START_GROUP] = group.number();
    put_u32(room, program_format::START_NUMBER, number);
    room[program_format::START_COMPONENTS] = components as u8;
    put_u16(room, program_format::START_RECORDS, records);
}
