//! The donor's side of connections on threads. A server calls a donor that jobs share, in turns, and
//! serves one connection after the other: each command that comes over a connection is carried out
//! by calls of its own seat, and their answers are sent back.
#![tactic(auto)]

mod end;
mod server;
mod service;

pub use end::ServeEnd;
pub use server::Server;
