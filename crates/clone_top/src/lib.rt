//! The top call: what the words of a command line ask for is done over the disks of a donor and of
//! a recipient. A script is read from a source, and the answers of its lines and the binlog go to
//! two sinks; a clone under load has its connections from a net and its threads from a crew.
#![tactic(auto)]

mod concluding;
mod load;
mod read;
mod reading;
mod recovering;
mod run;
mod saying;
mod status;

pub use run::{Ended, clone_main};
pub use status::Status;
