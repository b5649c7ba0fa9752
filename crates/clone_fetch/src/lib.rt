//! The requester's side of one connection: one task's step over a recipient, by the rule that
//! applies. What was received is taken frame by frame, and what the task sends is put after the
//! bytes that are to be sent.
#![tactic(auto)]

mod answer;
mod completing;
mod fetch_core;
mod laws;
mod receiving;
mod sending;

pub use answer::TaskAnswer;
pub use fetch_core::FetchCore;
pub use laws::fetched_laws;
