//! The tests of the donor's side of a connection.
//! They stand apart, since a crate with tests is proved twice.
#![tactic(auto)]

#[cfg(test)]
mod script;
#[cfg(test)]
mod serve;
