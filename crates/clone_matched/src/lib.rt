//! The connections of a clone by several threads, once the desk has settled them: both ends of each
//! passed the same commands and answers.
#![tactic(auto)]

mod laws;

pub use laws::matched_laws;
