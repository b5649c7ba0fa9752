//! What the lines of a script make happen, as a plain donor sees it: the events of each line, what
//! becomes of a clone, and what a whole run says. Definitions and laws.
#![tactic(auto)]

mod laws;

pub use laws::{run_laws, runs_join};
