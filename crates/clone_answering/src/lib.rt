//! What the donor's jobs of a clone under load do, as the runs of a clone are read: what passed at
//! the ends that a task's job served, and that the calls of all other jobs serve nothing.
#![tactic(auto)]

mod laws;

pub use laws::{aside_laws, serving_laws};
