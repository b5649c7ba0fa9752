//! The tests of the edge: disks of files, sockets and streams, with a crew and a gate.
//! They stand apart, since a crate with tests is proved twice.
#![tactic(auto)]

#[cfg(test)]
mod crew;
#[cfg(test)]
mod files;
#[cfg(test)]
mod sockets;
#[cfg(test)]
mod streams;
