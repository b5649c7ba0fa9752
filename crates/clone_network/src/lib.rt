//! The connections between a donor and the tasks of a requester, in memory: for each the bytes that
//! were sent and aren't read, both ways, and both of its ends. A step of a task and a step of the
//! donor are made here, over a recipient and something that answers a donor's calls.
#![tactic(auto)]

mod connection;
mod donor_step;
mod laws;
mod network;
mod task_step;

pub use connection::Connection;
pub use donor_step::DonorStep;
pub use laws::course_laws;
pub use network::{Network, Seat};
