//! The requester's side of a clone by several threads: what is known of the clone and its disk are
//! in a turn of their own, in which each task makes its steps.
#![tactic(auto)]

mod clone_ended;
mod machine;
mod recipient;

pub use clone_ended::CloneEnded;
pub use machine::{RecipientAnswer, RecipientCall, RecipientMachine};
pub use recipient::{Recipient, TaskStep, TaskStepped};
