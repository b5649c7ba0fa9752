//! The donor's side of one connection, which knows no donor: it takes commands from the bytes that
//! were received, asks for calls, and sends frames that tell their answers.
#![tactic(auto)]

mod after;
mod commands;
mod doing;
mod following;
mod frames;
mod laws;
mod serve_core;
mod stepping;
mod turn;

pub use after::After;
pub use commands::Command;
pub use doing::{Doing, Execution, Place, Work};
pub use laws::{frames_are_answers, served_laws, step_laws};
pub use serve_core::ServeCore;
pub use stepping::MOST_ASKS;
pub use turn::{ServeAnswer, ServeTurn};
