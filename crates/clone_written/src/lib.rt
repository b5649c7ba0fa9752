//! What the writers of a clone under load have committed once its jobs are done. The donor's run is
//! shuffled from the calls of all jobs. Those of a writer lead its transactions one after another,
//! and those of the other jobs touch no transaction.
#![tactic(auto)]

mod laws;

pub use laws::{count_laws, front_laws, moves_laws, set_up_laws, written_laws};
