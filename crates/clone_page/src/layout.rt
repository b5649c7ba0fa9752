//! The layout of a page, in bytes from its beginning: constant 0, number 4, page before 8, next
//! page 12, LSN 16, kind 24, space 34, body 38 to 4,087; in the trailer the constant again at
//! 4,088, and at 4,092 the low half of the LSN. A page of rows has 50 slots of 80 bytes from 48
//! on, each with state 0, length 1, key 8 and value 16. The system page has the number of commits
//! at 40, and from 64 on 62 entries of 16 bytes.
use clone_base::{PAGE_SIZE, TABLE_LIMIT, VALUE_LIMIT};

/// Where the page's number within its space stands.
pub const NUMBER_AT: usize = 4;

/// Where the number of the page before stands.
pub const PREVIOUS_AT: usize = 8;

/// Where the number of the next page stands.
pub const NEXT_AT: usize = 12;

/// Where the page LSN stands.
pub const LSN_AT: usize = 16;

/// Where the number of the page's kind stands.
pub const KIND_AT: usize = 24;

/// Where the page's space stands.
pub const SPACE_AT: usize = 34;

/// Where the body begins, behind the header.
pub const BODY_AT: usize = 38;

/// Where the trailer begins, behind the body.
pub const TRAILER_AT: usize = PAGE_SIZE - 8;

/// Where the low 32 bits of the page LSN stand, in the trailer.
pub const END_LSN_AT: usize = TRAILER_AT + 4;

/// What stands in the place of a checksum, at the front and in the trailer.
pub const CHECKSUM: u32 = 0xDEAD_BEEF;

/// What stands in the place of a neighbour that isn't there.
pub const NO_PAGE: u32 = 0xFFFF_FFFF;

/// How many slots a bucket page or an overflow page has.
pub const ROW_SLOT_COUNT: u16 = 50;

/// Where the first slot stands.
pub const SLOTS_AT: usize = 48;

/// How many bytes a slot has.
pub const SLOT_BYTES: usize = SLOT_VALUE_AT + VALUE_LIMIT;

/// Where in a slot the length of its value stands. Its state is the first byte.
pub const SLOT_LENGTH_AT: usize = 1;

/// Where in a slot its key stands.
pub const SLOT_KEY_AT: usize = 8;

/// Where in a slot its value stands.
pub const SLOT_VALUE_AT: usize = 16;

/// How many entries the dictionary has, which stands on the system page.
pub const ENTRY_COUNT: usize = TABLE_LIMIT;

/// Where the first entry stands.
pub const ENTRIES_AT: usize = 64;

/// How many bytes an entry has.
pub const ENTRY_BYTES: usize = 16;

/// Where the number of commits stands on the system page.
pub const POSITION_AT: u16 = 40;
