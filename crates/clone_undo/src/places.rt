//! Where the undo slots stand in the system space. There are 64 slots of four pages: slot s has
//! pages 1 + 4s to 4 + 4s. Its header of 16 bytes is at 40 of the first: active 0, count 2, writer
//! 4, index 8. Each page has 40 records of 96 bytes from 64 on: table 0, page 4, slot 8, state 10,
//! length 11, key 16, value 24. Record i stands on page i / 40 of the slot, as its record i mod
//! 40.
ghost use Rattle.std.specs.Prelude.{◌≡◌, ◌<◌, ◌+◌, ◌*◌};
ghost use Rattle.clone_undo.specs.Places as places;

use clone_base::{CHANGE_LIMIT, TRANSACTION_LIMIT};

/// How many undo slots there are.
pub const UNDO_SLOT_COUNT: u32 = TRANSACTION_LIMIT;

/// How many pages an undo slot has.
pub const UNDO_SLOT_PAGES: u32 = 4;

/// How many changes an undo slot tells at most.
pub const UNDO_CAPACITY: u16 = CHANGE_LIMIT as u16;

/// How many records stand on a page.
pub const RECORDS_ON_PAGE: usize = 40;

/// Where the first record of a page stands.
pub const RECORDS_AT: usize = 64;

/// How many bytes a record has.
pub const RECORD_BYTES: usize = 96;

/// Where in a record the page of the changed row slot stands. Its table comes first.
pub const RECORD_PAGE_AT: usize = 4;

/// Where in a record the changed row slot stands.
pub const RECORD_SLOT_AT: usize = 8;

/// Where in a record the state before stands.
pub const RECORD_STATE_AT: usize = 10;

/// Where in a record the length of the value before stands.
pub const RECORD_LENGTH_AT: usize = 11;

/// Where in a record the key stands.
pub const RECORD_KEY_AT: usize = 16;

/// Where in a record the value before stands.
pub const RECORD_VALUE_AT: usize = 24;

/// The pages of a table's space have numbers below this.
pub const TABLE_PAGE_LIMIT: u32 = 65_536;

/// Where the header stands, on the first page of an undo slot. Its first byte is 1 where the slot
/// is in use.
pub const HEADER_AT: u16 = 40;

/// How many bytes the header has.
pub const HEADER_BYTES: usize = 16;

/// Where in the header the number of records stands.
pub const COUNT_AT: u16 = 42;

/// Where in the header the writer stands.
pub const WRITER_AT: u16 = 44;

/// Where in the header the index of the transaction stands.
pub const INDEX_AT: u16 = 48;

/// The page of the system space that has the header of an undo slot. `slot` is its number, from 0
/// to 63.
pub fn header_page(slot: u32) -> u32
    requires { slot < places.undo_slot_count }
    ensures { result ≡ places.header_page slot }
{
    1 + UNDO_SLOT_PAGES * slot
}

/// The page of the system space that has the record of this number, counted from 0, of an undo
/// slot.
pub fn record_page(slot: u32, number: usize) -> u32
    requires slot { slot < places.undo_slot_count }
    requires number { number < places.capacity }
    ensures { result ≡ places.record_page slot number }
{
    header_page(slot) + (number / RECORDS_ON_PAGE) as u32
}

// Where on its page the record of this number stands.
pub fn record_offset(number: usize) -> usize
    requires { number < places.capacity }
    ensures { result ≡ places.record_offset number }
{
    RECORDS_AT + RECORD_BYTES * (number % RECORDS_ON_PAGE)
}
