//! Turns: a state machine that threads call one at a time, and what each of them knows of the run.
//!
//! A `TurnCell` keeps the state of a `Machine`. A call on it waits for its turn, lifts the state,
//! makes one step of the machine and puts the state home. So the calls of all threads stand in one
//! legal run. A `Seat` is the right to call: it knows the part of the run that it has seen, and
//! which calls in it are its own. It has no bytes. Seats are split and joined, and whoever has the
//! whole share at the end knows that the run is made of the calls that its seat knows as its own.
#![tactic(auto)]

mod adder;
mod cell;
mod laws;
mod machine;
mod pass;
mod raw;
mod rule;
mod view;

pub use adder::{Added, Adder, add_by_two, add_often};
pub use cell::{Seat, TurnCell};
pub use laws::{close_laws, share_laws, worked_laws};
pub use machine::Machine;
pub use pass::Pass;
pub use view::Entry;
