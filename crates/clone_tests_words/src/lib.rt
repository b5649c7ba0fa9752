//! The tests of what a command line asks for, of the workload that it generates, of a writer of it
//! and of the summary of a run.
//! They stand apart, since a crate with tests is proved twice.
#![tactic(auto)]

#[cfg(test)]
mod summary;
#[cfg(test)]
mod words;
#[cfg(test)]
mod workload;
#[cfg(test)]
mod writer;
