// The kinds of arguments by number.
pub const SIXTEEN: u16 = 0;

pub const NIL: u16 = 1;

pub const INDEX: u16 = 2;

pub const ALTERNATIVES: u16 = 3;

pub const PARAMETERS: u16 = 4;

pub const SEQUENCE: u16 = 5;
