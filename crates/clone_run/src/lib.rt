//! A clone under load: writers, a flusher, a checkpointer and an archiver work at a donor while
//! tasks clone it, each of them in a thread of its own.
#![tactic(auto)]

mod failure;
mod kinds;
mod load;
mod outcome;
mod run;
mod running;
mod starting;
mod tables;
mod team;

pub use failure::Failure;
pub use kinds::{RunDisk, RunLink, RunNet};
pub use load::Load;
pub use outcome::{Cloned, Outcome};
pub use run::{RunEnd, SESSION, VERSION, clone_under_load};
