//! How much a clone, and a donor over its connections, have left to do, each as one number that their
//! steps lower, so that loops of such steps end.
#![tactic(auto)]

mod laws;

pub use laws::{ending_laws, given_up_laws, lone_end_laws, quiet_laws, service_laws, unread_laws};
