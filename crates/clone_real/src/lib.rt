//! The edge of the program: disks of files, connections of the system, and its streams. Each call
//! is a few calls of the system, and each of their failures is counted. No contract here speaks of
//! what a file holds or what came over a socket.
#![tactic(auto)]

mod any_disk;
mod any_net;
mod directory;
mod fault_count;
mod file_disk;
mod names;
mod socket_end;
mod socket_net;
mod space_file;
mod std_sink;
mod std_source;

pub use any_disk::AnyDisk;
pub use any_net::{AnyEnd, AnyName, AnyNet};
pub use file_disk::FileDisk;
pub use names::{push_file_name, space_named};
pub use socket_end::SocketEnd;
pub use socket_net::{SocketNet, accept_from};
pub use std_sink::{SINK_ROOM, StdSink};
pub use std_source::StdSource;
