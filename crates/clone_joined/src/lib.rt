//! A donor and a recipient that talk over the connections of a network: what holds of the two and
//! of all that is on its way between them, up to the moment at which the clone is complete, while
//! strangers connect to the donor and other sessions come and go.
#![tactic(auto)]

mod laws;

pub use laws::{end_laws, joined_laws};
