//! How far a clone is, and the text that says so: a line for the clone, and one for each of its
//! seven stages.
#![tactic(auto)]

mod progress;
mod text;

pub use progress::{CloneStatus, Copied, CopyState, Progress};
pub use text::progress_text;
