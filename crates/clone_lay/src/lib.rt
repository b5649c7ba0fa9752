//! What a requester writes of a clone on its disk: the in-progress mark, pages and redo bytes as
//! they come, each at its place, and the complete mark.
//!
//! The disk is never asked for its sizes. A requester keeps how many pages each space has that was
//! made, so a call knows whether a space is to be made, to be extended, or has room.
#![tactic(auto)]

mod laws;
mod laying;
mod marking;

pub use laws::{block_laws, laid_laws, size_laws};
pub use laying::{REDO_BLOCK, lay_page, lay_redo, make_room};
pub use marking::{begin_copy, complete};
