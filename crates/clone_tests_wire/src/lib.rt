//! The tests of the frames that a clone is asked for and answered by, and of taking them from bytes
//! that come in pieces. They stand apart, since a crate with tests is proved twice.
#![tactic(auto)]

#[cfg(test)]
mod stream;
#[cfg(test)]
mod wire;
