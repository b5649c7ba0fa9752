//! A donor that the jobs of a run share. Each of their calls is a step of one machine: a call of the
//! donor, a look at how many commits there are, or one of the flag by which the run ends.
#![tactic(auto)]

mod calls;
mod laws;
mod machine;
mod shared;

pub use calls::{JobAnswer, JobCall};
pub use laws::{halt_laws, run_laws};
pub use machine::DonorMachine;
pub use shared::SharedDonor;
