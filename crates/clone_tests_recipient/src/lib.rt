//! The tests of what a requester lays on its disk, and of the steps by which a task does it.
//! They stand apart, since a crate with tests is proved twice.
#![tactic(auto)]

#[cfg(test)]
mod fetch;
#[cfg(test)]
mod partial;
#[cfg(test)]
mod recipient;
#[cfg(test)]
mod stuck;
