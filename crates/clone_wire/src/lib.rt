//! Frames: what a donor and a requester of a clone send each other, and the one spelling of each
//! frame as bytes. A frame is a code of 1 byte, the length of its payload in 4 bytes, and the
//! payload. All numbers are big-endian.
#![tactic(auto)]

mod encoding;
mod fault;
mod fields;
mod frame;
mod laws;
mod limits;
mod numbers;
mod payloads;
mod reading;
mod stage;
mod taken;
mod writing;

pub use encoding::encode;
pub use fault::{HeadRefusal, WireRefusal};
pub use frame::{Attempt, Frame, Side};
pub use laws::{one_answer, one_spelling, spells_back};
pub use limits::{
    HEAD_BYTES, MOST_BITMAP, MOST_TAKEN, PAGE_AT_BYTES, PAGES_FIELDS, PARTIAL_BYTES, REDO_FIELDS,
    REINIT_FIELDS, REINIT2_FIELDS, SPACE_BYTES, STAGE_FIELDS,
};
pub use reading::{decode, read_head};
pub use stage::PageStage;
