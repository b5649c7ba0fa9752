//! A clone under load as a whole: what its donor, its recipient and its desk did, each in one legal
//! run that is known by itself, put together. Where the connections tell their bytes, what the
//! recipient took is what the donor told, the session was opened once, and a clone that is complete
//! holds the donor's history at a moment of its run.
#![tactic(auto)]

mod laws;

pub use laws::{failure_laws, loaded_laws, moment_laws, telling_laws};
