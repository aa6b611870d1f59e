// The layout of a slot and of a host answer in lent bytes. A slot is an identifier, a capacity and an image; an image is laid out as an answer.
use crate::controller::Controller;

// An answer: status, 0 for good; size in 4; digest. In a slot the first byte is 0 where no image is present.
pub const SIZE: usize = 1;

pub const DIGEST: usize = 5;

pub const IMAGE_BYTES: usize = DIGEST + Controller::DIGEST_BYTES;

// A slot: the identifier's length, its bytes, capacity in 4, image.
pub const IDENTIFIER: usize = 1;

pub const CAPACITY: usize = IDENTIFIER + Controller::IDENTIFIER_BYTES;

pub const IMAGE: usize = CAPACITY + 4;

pub const SLOT_SIZE: usize = IMAGE + SIZE;

pub const SLOT_DIGEST: usize = IMAGE + DIGEST;

pub const SLOT_BYTES: usize = IMAGE + IMAGE_BYTES;

pub type Image = [u8; IMAGE_BYTES];
