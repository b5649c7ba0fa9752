//! How the runs of a clone by several threads are read: the commands and the answers as the bytes of
//! frames, the ends of connections as the desk lent them, and what passed there.
#![tactic(auto)]

mod laws;

pub use laws::spelled_laws;
