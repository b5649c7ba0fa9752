//! A donor that gives clones in stages: an engine and the disk that it runs over, which no one else
//! holds. Each call is the engine's.
#![tactic(auto)]

mod answering;
mod copying;
mod donor;
mod flushing;
mod serving;

pub use donor::Donor;
