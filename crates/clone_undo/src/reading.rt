ghost use Rattle.std.specs.Prelude.{◌≡◌, ◌<◌, ◌≤◌, ◌-◌, ◌↔◌, IsTrue, true, false, IfSome, IfNone, length};
ghost use Rattle.clone_page.specs.Bytes.{part, field};
ghost use Rattle.clone_undo.specs.Entries.{UndoEntry, IsEntry, IsBefore, state_number, value_before};
ghost use Rattle.clone_undo.specs.Places as places;
ghost use Rattle.clone_undo.specs.Slots.{entry_on, is_in_use, count_of, writer_of, index_of};

use crate::before::Before;
use crate::places::{
    COUNT_AT, HEADER_AT, INDEX_AT, RECORD_BYTES, RECORD_KEY_AT, RECORD_LENGTH_AT, RECORD_PAGE_AT,
    RECORD_SLOT_AT, RECORD_STATE_AT, RECORD_VALUE_AT, UNDO_CAPACITY, WRITER_AT, record_offset,
};
use crate::record::{UndoRecord, is_row_slot_name};
use clone_base::VALUE_LIMIT;
use clone_model::Value;
use clone_page::{Page, u8_at, u16_at, u32_at, u64_at};

/// The header of an undo slot that is in use.
#[derive(Clone, Copy, Debug, PartialEq, Eq)]
pub struct SlotHeader {
    /// How many changes were made. No undo slot has more than 160, so a count above is damage.
    pub count: u16,
    /// Who writes.
    pub writer: u32,
    /// Which of the writer's transactions this is.
    pub index: u64,
}

/// The header on the first page of an undo slot, or none where the slot is free.
pub fn header(page: &Page) -> Option<SlotHeader>
    ensures none { IfNone result (is_in_use page.now ≡ false) }
    ensures some { IfSome result (λ h. is_in_use page.now ≡ true) }
    ensures count { IfSome result (λ h. h.count ≡ count_of page.now) }
    ensures writer { IfSome result (λ h. h.writer ≡ writer_of page.now) }
    ensures index { IfSome result (λ h. h.index ≡ index_of page.now) }
{
    let bytes = page.bytes();
    if u8_at(bytes, HEADER_AT as usize) != 1 {
        return None;
    }
    Some(SlotHeader {
        count: u16_at(bytes, COUNT_AT as usize),
        writer: u32_at(bytes, WRITER_AT as usize),
        index: u64_at(bytes, INDEX_AT as usize),
    })
}

/// Whether the count in the header is one that an undo slot may have.
pub fn has_possible_count(page: &Page) -> bool
    ensures { IsTrue result ↔ (count_of page.now ≤ places.capacity) }
{
    u16_at(page.bytes(), COUNT_AT as usize) <= UNDO_CAPACITY
}

/// The record of this number, counted from 0, from its page, or none where one of its fields is out
/// of range.
pub fn record_at(page: &Page, number: usize) -> Option<UndoRecord>
    requires { number < places.capacity }
    ensures some { IfSome result (λ r. r ≡ entry_on number page.now) }
    ensures ranges { IfSome result (λ r. IsEntry r) }
    ensures none { IfNone result (IsEntry (entry_on number page.now) → ⊥) }
{
    let bytes = record_bytes(page, number);
    let table = u32_at(bytes, 0);
    let row_page = u32_at(bytes, RECORD_PAGE_AT);
    let slot = u16_at(bytes, RECORD_SLOT_AT);
    let key = u64_at(bytes, RECORD_KEY_AT);
    if !is_row_slot_name(table, row_page, slot) {
        return None;
    }
    let before = before_in(bytes)?;
    Some(UndoRecord::new(table, row_page, slot, key, before))
}

/// The last of so many records, from its page, or none where one of its fields is out of range.
pub fn last_record(page: &Page, count: u16) -> Option<UndoRecord>
    requires some { 0 < count }
    requires count { count ≤ places.capacity }
    ensures some { IfSome result (λ r. r ≡ entry_on (count - 1) page.now) }
    ensures ranges { IfSome result (λ r. IsEntry r) }
    ensures none { IfNone result (IsEntry (entry_on (count - 1) page.now) → ⊥) }
{
    record_at(page, count as usize - 1)
}

// The bytes of the record of this number.
fn record_bytes(page: &Page, number: usize) -> &[u8]
    requires { number < places.capacity }
    ensures value { result.now ≡ part (places.record_offset number) RECORD_BYTES page.now }
    ensures long { length result.now ≡ RECORD_BYTES }
{
    let at = record_offset(number);
    &page.bytes()[at..at + RECORD_BYTES]
}

// What the slot held before, by the bytes of a record, or none where the state or the length is out
// of range.
fn before_in(bytes: &[u8]) -> Option<Before>
    requires { length bytes.now ≡ RECORD_BYTES }
    ensures state { IfSome result (λ b. state_number b ≡ field RECORD_STATE_AT 1 bytes.now) }
    ensures value { IfSome result (λ b. value_before b
        ≡ part RECORD_VALUE_AT (field RECORD_LENGTH_AT 1 bytes.now) bytes.now) }
    ensures ranges { IfSome result (λ b. IsBefore (state_number b) (value_before b)) }
    ensures none { IfNone result (IsBefore (field RECORD_STATE_AT 1 bytes.now)
        (part RECORD_VALUE_AT (field RECORD_LENGTH_AT 1 bytes.now) bytes.now) → ⊥) }
{
    let long = u8_at(bytes, RECORD_LENGTH_AT);
    match u8_at(bytes, RECORD_STATE_AT) {
        1 => present_in(bytes, long),
        2 if long == 0 => Some(Before::Absent),
        _ => None,
    }
}

// A row with the value of so many bytes in a record, or none where they are more than a value has.
fn present_in(bytes: &[u8], long: u8) -> Option<Before>
    requires { length bytes.now ≡ RECORD_BYTES }
    ensures state { IfSome result (λ b. state_number b ≡ 1) }
    ensures value { IfSome result (λ b. value_before b ≡ part RECORD_VALUE_AT long bytes.now) }
    ensures short { IfSome result (λ b. length (value_before b) ≤ VALUE_LIMIT) }
    ensures none { IfNone result (VALUE_LIMIT < long) }
{
    let long = long as usize;
    if long > VALUE_LIMIT {
        return None;
    }
    let value = Value::new(&bytes[RECORD_VALUE_AT..RECORD_VALUE_AT + long])?;
    Some(Before::Present(value))
}
