//! The texts of a run in which a donor was cloned under load: its summary, and the report that may
//! follow it.
#![tactic(auto)]

mod counts;
mod texts;

pub use texts::{report, summary};
