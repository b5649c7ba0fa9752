//! The redo log between its floor and its end, in a ring of bytes.
#![tactic(auto)]

mod blocks;
mod log_full;
mod ring;

pub use log_full::LogFull;
pub use ring::Ring;
