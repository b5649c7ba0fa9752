//! The tests of a donor and a recipient over connections in memory, step by step. They stand apart,
//! since a crate with tests is proved twice.
#![tactic(auto)]

#[cfg(test)]
mod steps;
