//! Pages are flushed in halves, and checkpoints are taken.
#![tactic(auto)]

mod flusher;
mod kept;
mod refusal;

pub use flusher::Flusher;
pub use refusal::FlushRefusal;
