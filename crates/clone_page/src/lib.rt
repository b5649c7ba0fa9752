//! The page of 4,096 bytes: its header, its trailer, and what stands between them; and the pages of
//! a block, each with its place.
#![tactic(auto)]

mod bytes;
mod kind;
mod laws;
mod layout;
mod page;
mod pages;

pub use bytes::{put, u8_at, u16_at, u32_at, u64_at};
pub use kind::PageKind;
pub use laws::{dictionary_laws, header_laws, part_laws, slot_laws};
pub use layout::{
    BODY_AT, CHECKSUM, END_LSN_AT, ENTRIES_AT, ENTRY_BYTES, ENTRY_COUNT, KIND_AT, LSN_AT, NEXT_AT,
    NO_PAGE, NUMBER_AT, POSITION_AT, PREVIOUS_AT, ROW_SLOT_COUNT, SLOT_BYTES, SLOT_KEY_AT,
    SLOT_LENGTH_AT, SLOT_VALUE_AT, SLOTS_AT, SPACE_AT, TRAILER_AT,
};
pub use page::{Page, is_allowed};
pub use pages::{PageAt, Pages};
