// The codes of commands, the keys of parameters and sections, as document 01 numbers them.
pub const VENDOR: usize = 1;

pub const CLASS: usize = 2;

pub const IMAGE_MATCH: usize = 3;

pub const SET_INDEX: usize = 12;

pub const ABORT: usize = 14;

pub const TRY_EACH: usize = 15;

pub const SET_PARAMETERS: usize = 19;

pub const OVERRIDE_PARAMETERS: usize = 20;

pub const FETCH: usize = 21;

pub const COPY: usize = 22;

pub const RUN: usize = 23;

pub const RUN_SEQUENCE: usize = 30;

pub const SWAP: usize = 32;

// Parameters.
pub const COERCE: usize = 2;

pub const URI: usize = 6;

pub const SOURCE: usize = 10;

pub const DIGEST: usize = 11;

pub const SIZE: usize = 12;

// Sections of a manifest; common's own sequence goes by the key of common.
pub const COMMON: usize = 3;

pub const PAYLOAD_FETCH: usize = 8;

pub const INSTALL: usize = 9;

pub const VALIDATE: usize = 10;

pub const LOAD: usize = 11;

pub const RUN_SECTION: usize = 12;
