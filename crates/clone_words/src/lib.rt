//! The words of a command line: which command they ask for, or that they are no command line.
#![tactic(auto)]

mod command;
mod options;
mod reading;

pub use command::{Command, Dump, Place, Recover, Run};
pub use reading::{WordsRefusal, parse, places};
