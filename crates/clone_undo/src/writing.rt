//! The records of each mini-transaction, in their order. Begin: the header, with no records.
//! Change: the undo record, the new count, then the row slot. Take back: the row slot as before,
//! then the count, one less. End: the header as zero bytes. Ahead of a page's first write it is
//! made, where it is unused. Those of one list are one mini-transaction.
ghost use Rattle.std.specs.Prelude.{◌≡◌, ◌<◌, ◌≤◌, ◌∷◌, [], true, false};
ghost use Rattle.clone_undo.specs.Entries.{entry_bytes};
ghost use Rattle.clone_undo.specs.Places as places;
ghost use Rattle.clone_undo.specs.Slots.{header_bytes};
ghost use Rattle.clone_undo.specs.Changes.{made_first, system_write, count_record, row_record, records_of_begin, records_of_change, records_of_taking_back, records_of_end};

use crate::places::{COUNT_AT, HEADER_AT, HEADER_BYTES, header_page, record_offset, record_page};
use crate::record::UndoRecord;
use byteorder::{BigEndian, ByteOrder};
use clone_mtr::{Patch, Record};
use clone_page::{PageKind, SLOT_BYTES, SLOTS_AT};

/// A transaction begins: the undo slot is in use and has no records. The first record makes the
/// page of its header. Where that page is in use, only the second is written.
pub fn begin_records(slot: u32, writer: u32, index: u64) -> [Record; 2]
    requires { slot < places.undo_slot_count }
    ensures { result ≡ records_of_begin true slot writer index }
{
    [
        made(header_page(slot)),
        Record::Write {
            space: 0,
            page: header_page(slot),
            patch: Patch::new(HEADER_AT, &header_of(writer, index)),
        },
    ]
}

/// A change is made behind `count` others: its undo record, the new count, and the row slot that
/// the record names, which gets the bytes of `image`. The first record makes the page of the undo
/// record. Where that page is in use, only the others are written.
pub fn change_records(
    slot: u32,
    count: u16,
    entry: &UndoRecord,
    image: &[u8; SLOT_BYTES],
) -> [Record; 4]
    requires slot { slot < places.undo_slot_count }
    requires room { count < places.capacity }
    ensures { result ≡ records_of_change true false slot count entry.now image.now }
{
    let page = record_page(slot, count as usize);
    [
        made(page),
        entry_write(page, count, entry),
        count_write(slot, count + 1),
        row_write(entry, image),
    ]
}

/// A change as by `change_records`, where the page of the row is made first, too.
pub fn first_change_records(
    slot: u32,
    count: u16,
    entry: &UndoRecord,
    image: &[u8; SLOT_BYTES],
) -> [Record; 5]
    requires slot { slot < places.undo_slot_count }
    requires room { count < places.capacity }
    ensures { result ≡ records_of_change true true slot count entry.now image.now }
{
    let page = record_page(slot, count as usize);
    let row_page = Record::Init {
        space: entry.table(),
        page: entry.page(),
        kind: PageKind::Bucket,
    };
    [
        made(page),
        entry_write(page, count, entry),
        count_write(slot, count + 1),
        row_page,
        row_write(entry, image),
    ]
}

/// The last of `count` changes is taken back: the row slot that its record names gets the state,
/// the length and the value from before, and the count is one less.
pub fn take_back_records(slot: u32, count: u16, entry: &UndoRecord) -> [Record; 2]
    requires slot { slot < places.undo_slot_count }
    requires some { 0 < count }
    requires count { count ≤ places.capacity }
    ensures { result ≡ records_of_taking_back slot count entry.now }
{
    [
        row_write(entry, &entry.slot_before()),
        count_write(slot, count - 1),
    ]
}

/// A transaction ends: the undo slot is free.
pub fn end_record(slot: u32) -> Record
    requires { slot < places.undo_slot_count }
    ensures { result ∷ [] ≡ records_of_end slot }
{
    Record::Write {
        space: 0,
        page: header_page(slot),
        patch: Patch::new(HEADER_AT, &[0; HEADER_BYTES]),
    }
}

// A page of the system space is made an undo page.
fn made(page: u32) -> Record
    ensures { result ∷ [] ≡ made_first true 0 page PageKind.Undo }
{
    Record::Init {
        space: 0,
        page,
        kind: PageKind::Undo,
    }
}

// The header of a slot that is in use and has no records.
fn header_of(writer: u32, index: u64) -> [u8; HEADER_BYTES]
    ensures { result ≡ header_bytes 0 writer index }
{
    let mut bytes = [0; HEADER_BYTES];
    bytes[0] = 1;
    BigEndian::write_u32(&mut bytes[4..8], writer);
    BigEndian::write_u64(&mut bytes[8..16], index);
    bytes
}

// The undo record is written behind `count` others.
fn entry_write(page: u32, count: u16, entry: &UndoRecord) -> Record
    requires { count < places.capacity }
    ensures { result ≡ system_write page (places.record_offset count) (entry_bytes entry.now) }
{
    Record::Write {
        space: 0,
        page,
        patch: Patch::new(record_offset(count as usize) as u16, &entry.image()),
    }
}

// The number of records is written.
fn count_write(slot: u32, count: u16) -> Record
    requires { slot < places.undo_slot_count }
    ensures { result ≡ count_record slot count }
{
    Record::Write {
        space: 0,
        page: header_page(slot),
        patch: Patch::new(COUNT_AT, &count.to_be_bytes()),
    }
}

// The row slot that the record names gets these bytes.
fn row_write(entry: &UndoRecord, image: &[u8; SLOT_BYTES]) -> Record
    ensures { result ≡ row_record entry.now image.now }
{
    Record::Write {
        space: entry.table(),
        page: entry.page(),
        patch: Patch::new(
            (SLOTS_AT + SLOT_BYTES * entry.slot() as usize) as u16,
            image,
        ),
    }
}
