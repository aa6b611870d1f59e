// The layout of a program (01, The flat program): each number and offset stands here once.
// Every record starts with its mark and a code.
pub const MARK: u8 = 0x53;

pub const MARK_2: u8 = 0x50;

pub const CODE: usize = 2;

// Start: mark, FE, group 1, sequence number 4, component count 1, record count 2.
pub const START: usize = 0xfe;

pub const START_GROUP: usize = 3;

pub const START_NUMBER: usize = 4;

pub const START_COMPONENTS: usize = 8;

pub const START_RECORDS: usize = 9;

pub const START_BYTES: usize = 11;

// Per component: mark, FD, length 1, identifier.
pub const NAME: usize = 0xfd;

pub const NAME_LENGTH: usize = 3;

pub const NAME_BYTES: usize = 4;

// Command: mark, code, component 1, place 2, target 2, argument length 2, argument.
pub const COMPONENT: usize = 3;

pub const PLACE: usize = 4;

pub const TARGET: usize = 6;

pub const ARGUMENT_LENGTH: usize = 8;

pub const RECORD_BYTES: usize = 10;

// A jump's code, and the target of a record that has none.
pub const JUMP: usize = 0xff;

pub const NO_TARGET: usize = 0xffff;

// A parameter in an argument: key 1, length 1, value; a source has 1 byte, a size 4.
pub const ENTRY_LENGTH: usize = 1;

pub const ENTRY_BYTES: usize = 2;

pub const SOURCE_BYTES: usize = 1;

pub const SIZE_BYTES: usize = 4;
