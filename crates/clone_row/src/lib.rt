//! A bucket page or an overflow page as a list of 50 slots: what the slots hold, the bytes of a
//! slot, and what a write of a slot leaves.
#![tactic(auto)]

mod chains;
mod laws;
mod slots;

pub use chains::next_page;
pub use laws::{chain_laws, header_write_laws, made_laws, row_laws, slot_write_laws};
pub use slots::{find, free_slot, present, slot_image, slot_offset};
