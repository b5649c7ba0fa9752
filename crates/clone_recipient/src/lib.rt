//! What a requester keeps of a clone: where its tasks are, what it was told of each stage, and
//! which blocks were taken. An answer of a donor is taken where a task awaits it, and what it says
//! is laid on a disk. No donor is named.
#![tactic(auto)]

mod beginning;
mod blocks;
mod completing;
mod expecting;
mod laws;
mod laying;
mod limits;
mod moving;
mod plans;
mod progress;
mod reception;
mod refusal;
mod taking;
mod took;

pub use laws::record_laws;
pub use limits::{MOST_COPIED, MOST_SPACE};
pub use reception::Reception;
pub use refusal::{BeginCause, TakeRefusal};
pub use took::Took;
