//! The pages of a donor in the frames of a pool, and the redo log that made them.
#![tactic(auto)]

mod buffer;
mod shadow;

pub use buffer::{Buffer, copy_laws, flush_laws, read_laws};
pub use shadow::{Note, Shadow, sent};
