//! What the stages of a clone leave on a recipient's disk, and the law that such a disk recovers to
//! the history of the donor at the stop.
#![tactic(auto)]

mod laws;

pub use laws::{holds_laws, start_laws};
