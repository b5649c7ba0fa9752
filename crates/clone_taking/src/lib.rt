//! What the tasks of a recipient do in a clone under load: each of their steps takes one frame at
//! most and puts out one at most, which passed over their connections in that order.
#![tactic(auto)]

mod laws;

pub use laws::{floor_laws, keeping_laws, others_laws, taking_laws};
