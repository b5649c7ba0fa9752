//! An undo record: which row slot was changed, and what it held before. The table is from 1 to
//! 1,000,000, the page below 65,536 and the slot below 50. A slot that was absent held no value.
ghost use Rattle.std.specs.Prelude.{◌≡◌, ◌≤◌, ◌<◌, ◌↔◌, IsTrue, length};
ghost use Rattle.clone_page.specs.Slots.{row_slot_count};
ghost use Rattle.clone_undo.specs.Entries.{IsRowSlotName, IsBefore, IsEntry, state_number, value_before, entry_bytes};
ghost use Rattle.clone_undo.specs.Changes.{slot_before};

use crate::before::Before;
use crate::places::{
    RECORD_BYTES, RECORD_KEY_AT, RECORD_PAGE_AT, RECORD_SLOT_AT, RECORD_STATE_AT, RECORD_VALUE_AT,
    TABLE_PAGE_LIMIT,
};
use clone_base::VALUE_LIMIT;
use clone_model::HIGHEST_TABLE;
use clone_page::{ROW_SLOT_COUNT, SLOT_BYTES, SLOT_KEY_AT, SLOT_VALUE_AT, put};
use std::marker::Model;

/// One change of a row slot: which slot it was, and what it held before. The table is from 1 to
/// 1,000,000, the page below 65,536 and the slot below 50.
#[derive(Drop)]
pub struct UndoRecord {
    table: u32,
    page: u32,
    slot: u16,
    key: u64,
    before: Before,
}

impl Model for UndoRecord {
    ghost use Rattle.std.specs.Prelude.{ℕ};
    ghost use Rattle.clone_undo.specs.Entries.{UndoEntry, IsRowSlotName, state_number, value_before};

    ghost Value = { UndoEntry };

    ghost view = { λ r. record {
      table = r.table;
      page = r.page;
      slot = r.slot;
      state = state_number r.before;
      key = r.key;
      value = value_before r.before;
    } };

    ghost invariant = { λ r. IsRowSlotName r.table r.page r.slot };
}

impl UndoRecord {
    /// A change of the key's slot, which held this before.
    pub fn new(table: u32, page: u32, slot: u16, key: u64, before: Before) -> UndoRecord
        requires { IsRowSlotName table page slot }
        ensures { result ≡ record {
          table = table;
          page = page;
          slot = slot;
          state = state_number before;
          key = key;
          value = value_before before;
        } }
    {
        UndoRecord {
            table,
            page,
            slot,
            key,
            before,
        }
    }

    /// The table's number.
    pub fn table(&self) -> u32
        ensures { result ≡ self.now.table }
    {
        self.table
    }

    /// The page of the table's space.
    pub fn page(&self) -> u32
        ensures { result ≡ self.now.page }
    {
        self.page
    }

    /// The slot on that page.
    pub fn slot(&self) -> u16
        ensures value { result ≡ self.now.slot }
        ensures range { self.now.slot < row_slot_count }
    {
        self.slot
    }

    /// The row's key.
    pub fn key(&self) -> u64
        ensures { result ≡ self.now.key }
    {
        self.key
    }

    /// What the slot held before.
    pub fn before(&self) -> &Before
        ensures state { state_number result.now ≡ self.now.state }
        ensures value { value_before result.now ≡ self.now.value }
    {
        &self.before
    }

    /// The state of the slot before, 1 where it held a row and 2 where it held none.
    pub fn state(&self) -> u8
        ensures { result ≡ self.now.state }
    {
        match &self.before {
            Before::Present(_) => 1,
            Before::Absent => 2,
        }
    }

    /// The value before, which is empty where the slot held no row.
    pub fn value(&self) -> &[u8]
        ensures value { result.now ≡ self.now.value }
        ensures short { length self.now.value ≤ VALUE_LIMIT }
    {
        match &self.before {
            Before::Present(value) => value.bytes(),
            Before::Absent => &[],
        }
    }

    // Each field is in its range.
    fn known(&self)
        ensures { IsEntry self.now }
    {
        let _key = self.key;
        known_before(&self.before);
    }

    /// The bytes of the record.
    pub fn image(&self) -> [u8; RECORD_BYTES]
        ensures bytes { result ≡ entry_bytes self.now }
        ensures ranges { IsEntry self.now }
    {
        self.known();
        let value = self.value();
        let mut bytes = [0; RECORD_BYTES];
        put(&mut bytes, 0, &self.table.to_be_bytes());
        put(&mut bytes, RECORD_PAGE_AT, &self.page.to_be_bytes());
        put(&mut bytes, RECORD_SLOT_AT, &self.slot.to_be_bytes());
        let state = [self.state(), value.len() as u8];
        put(&mut bytes, RECORD_STATE_AT, &state);
        put(&mut bytes, RECORD_KEY_AT, &self.key.to_be_bytes());
        put(&mut bytes, RECORD_VALUE_AT, value);
        bytes
    }

    /// The bytes of the row slot before the change.
    pub fn slot_before(&self) -> [u8; SLOT_BYTES]
        ensures { result ≡ slot_before self.now }
    {
        let value = self.value();
        let mut bytes = [0; SLOT_BYTES];
        put(&mut bytes, 0, &[self.state(), value.len() as u8]);
        put(&mut bytes, SLOT_KEY_AT, &self.key.to_be_bytes());
        put(&mut bytes, SLOT_VALUE_AT, value);
        bytes
    }
}

// A value before is in its range.
fn known_before(before: &Before)
    ensures { IsBefore (state_number before.now) (value_before before.now) }
{
    match before {
        Before::Present(value) => {
            value.bytes();
        }
        Before::Absent => {}
    }
}

/// Whether there may be such a table, such a page of it and such a slot on the page.
pub fn is_row_slot_name(table: u32, page: u32, slot: u16) -> bool
    ensures { IsTrue result ↔ IsRowSlotName table page slot }
{
    1 <= table && table <= HIGHEST_TABLE && page < TABLE_PAGE_LIMIT && slot < ROW_SLOT_COUNT
}
