//! A machine that a run's jobs share, as the run has it: the seat that those of the jobs are split
//! off, and to which they come back. What the jobs did is known once it closes the cell.
#![tactic(auto)]

mod hub;
mod laws;

pub use hub::Hub;
pub use laws::{gather_laws, made_laws};
