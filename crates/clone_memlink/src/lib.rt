//! Connections in memory: what one end sends, the other receives, in order and no more. Threads
//! that hold the two ends call the connection in turns.
#![tactic(auto)]

mod bell;
mod connection;
mod cut;
mod mem_end;
mod mem_net;
mod piece;
mod way;

pub use connection::{Connection, LinkAnswer, LinkCall, LinkMachine, received_begins_sent};
pub use cut::{Cut, PLANNED_CUT};
pub use mem_end::MemEnd;
pub use mem_net::MemNet;
pub use piece::{PIECE, Piece};
pub use way::{ROOM, Way};
