//! The world that a script acts on: a donor, the disk of a recipient, the clone that it takes over
//! its connections, and what each line does to them.
#![tactic(auto)]

mod begun;
mod calls;
mod connections;
mod following;
mod laws;
mod lines;
mod replica;
mod rounds;
mod showing;
mod start;
mod strangers;
mod texts;
mod world;

pub use laws::run_laws;
pub use replica::Replica;
pub use world::{Copying, Course, Ending, World};
