//! The pages whose write was opened while files are copied.
#![tactic(auto)]

mod runs;
mod tracker;

pub use runs::TRACKED_LIMIT;
pub use tracker::Tracker;
