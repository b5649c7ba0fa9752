//! The engine of a donor that gives clones in stages, without its disk: transactions over a buffer,
//! flushes and checkpoints, and the session of a clone with the pages that are tracked and the redo
//! that is archived for it, in one state. A call that may ask the disk takes it last. What a clone
//! has taken goes on beside the engine, and at the stop that is one moment of the donor.
#![tactic(auto)]

mod blocks;
mod copying;
mod engine;
mod flushing;
mod laws;
mod opening;
mod reading;
mod serving;

pub use engine::Engine;
pub use laws::run_laws;
pub use opening::{OpenCause, OpenRefusal, is_empty};
