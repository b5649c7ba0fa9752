//! The texts that a script answers for a step of a task and for a step of the donor. None of them
//! ends with a line feed.
#![tactic(auto)]

mod block;
mod donor;
mod end;
mod task;

pub use donor::step_text;
pub use end::end_text;
pub use task::task_text;
