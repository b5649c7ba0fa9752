//! The desk of a clone by several threads: a net in a turn of its own, where the connections that
//! the tasks make wait to be served.
//!
//! A task makes a connection by `pair`, and has its end from it. The donor's end waits at the desk
//! until a job that serves the task asks for it by `donor_end`, and is handed out once. What was
//! handed out is given back by `give_back`. No call removes a record. Once no job uses the desk,
//! `settle` gives both ends of each connection back to the net.
#![tactic(auto)]

mod desk;
mod laws;
mod machine;
mod record;
mod settling;

pub use desk::Desk;
pub use laws::{desk_run_laws, fit_laws};
pub use machine::{DeskAnswer, DeskCall, DeskMachine};
pub use record::{DonorEnd, Record};
