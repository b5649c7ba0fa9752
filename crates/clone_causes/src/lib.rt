//! What stands behind how a clone under load ended. The failure that counts is in a count of faults
//! that rose over the run of what the jobs shared, or in what the recipient knows of the clone; and
//! so is how the clone was completed.
#![tactic(auto)]

mod laws;

pub use laws::{connection_laws, donor_laws, recipient_laws, told_laws};
