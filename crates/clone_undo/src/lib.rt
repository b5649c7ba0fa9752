//! Undo slots: who writes a transaction and what stood in each row slot before it was changed, read
//! from pages, and the mini-transactions that begin, change, take back and end.
#![tactic(auto)]

mod before;
mod laws;
mod places;
mod reading;
mod record;
mod writing;

pub use before::Before;
pub use laws::{begin_laws, change_laws, end_laws, slot_laws, taking_back_laws};
pub use places::{
    COUNT_AT, HEADER_AT, HEADER_BYTES, INDEX_AT, RECORD_BYTES, RECORD_KEY_AT, RECORD_LENGTH_AT,
    RECORD_PAGE_AT, RECORD_SLOT_AT, RECORD_STATE_AT, RECORD_VALUE_AT, RECORDS_AT, RECORDS_ON_PAGE,
    TABLE_PAGE_LIMIT, UNDO_CAPACITY, UNDO_SLOT_COUNT, UNDO_SLOT_PAGES, WRITER_AT, header_page,
    record_page,
};
pub use reading::{SlotHeader, has_possible_count, header, last_record, record_at};
pub use record::{UndoRecord, is_row_slot_name};
pub use writing::{
    begin_records, change_records, end_record, first_change_records, take_back_records,
};
