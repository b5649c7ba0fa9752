//! The tests of a follower, of its frames and of what a donor says of its binlog. They stand apart,
//! since a crate with tests is proved twice.
#![tactic(auto)]

#[cfg(test)]
mod follower;
#[cfg(test)]
mod frames;
