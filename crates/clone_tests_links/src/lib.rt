//! The tests of turns and of connections in memory, call by call and in threads.
//! They stand apart, since a crate with tests is proved twice.
#![tactic(auto)]

#[cfg(test)]
mod connections;
#[cfg(test)]
mod links;
#[cfg(test)]
mod turns;
