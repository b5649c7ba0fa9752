//! The bytes of the redo log that a session keeps beside the ring, from a checkpoint on.
#![tactic(auto)]

mod archive;
mod archive_behind;
mod blocks;
mod log_copy;

pub use archive::Archive;
pub use archive_behind::ArchiveBehind;
