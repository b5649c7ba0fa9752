//! The tasks of a recipient, without its disk: where each of them stands, which rule it acts by
//! next and what it sends by it, what it awaits, what a loss leaves, and how the clone ended.
#![tactic(auto)]

mod awaiting;
mod end;
mod laws;
mod losing;
mod moves;
mod rule;
mod rules;
mod sending;
mod standing;
mod table;

pub use end::{CloneEnd, LossAnswer};
pub use laws::{rule_laws, sending_laws};
pub use rule::{Link, Rule};
pub use standing::{Phase, Standing};
pub use table::TaskTable;
