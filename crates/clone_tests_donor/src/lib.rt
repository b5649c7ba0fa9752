//! The tests of the donor and of its engine: opening, the bytes of the log, and random walks with
//! clones in stages. They stand apart, since a crate with tests is proved twice.
#![tactic(auto)]

#[cfg(test)]
mod log;
#[cfg(test)]
mod opening;
#[cfg(test)]
mod walk;
