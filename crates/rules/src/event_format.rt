// The layout of an event (01, How a run goes): mark, code, component, place in 2, result, 0.
pub const MARK: u8 = 0x53;

pub const MARK_2: u8 = 0x54;

pub const CODE: usize = 2;

pub const COMPONENT: usize = 3;

pub const PLACE: usize = 4;

pub const RESULT: usize = 6;

pub const EVENT_BYTES: usize = 8;
