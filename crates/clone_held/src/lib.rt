//! A recipient that several tasks share: whatever their steps were, and in whatever order, a clone
//! that they completed holds the donor's history at the session's first stop.
#![tactic(auto)]

mod laws;

pub use laws::{accepted_laws, held_laws};
