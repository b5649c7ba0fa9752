//! The tests of the jobs at a donor's side, alone and in threads. They stand apart, since a crate
//! with tests is proved twice.
#![tactic(auto)]

#[cfg(test)]
mod alone;
#[cfg(test)]
mod expected;
#[cfg(test)]
mod shared;
#[cfg(test)]
mod threads;
