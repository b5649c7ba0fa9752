//! What each stage of a clone copies: a list of files, of pages, or a range of the log, cut into
//! chunks, which tasks claim, and these into blocks, which are sent.
#![tactic(auto)]

mod block;
mod files;
mod laws;
mod listing;
mod pages;
mod redo;
mod resets;
mod sizes;
mod snapshot;
mod span;

pub use block::{PageBlock, RedoBlock};
pub use files::{block_of_files, file_chunks};
pub use laws::{blocks_are_the_list, blocks_lie_within, chunks_have_blocks, last_of_all};
pub use sizes::{CHUNK_BYTES, CHUNK_PAGES, page_chunks, redo_chunks};
pub use snapshot::Snapshot;
