//! The tests of what a clone copies and how far it is: archive, chunks and blocks, marks, tracked
//! pages, sessions and progress.
//! They stand apart, since a crate with tests is proved twice.
#![tactic(auto)]

#[cfg(test)]
mod archive;
#[cfg(test)]
mod chunk;
#[cfg(test)]
mod marks;
#[cfg(test)]
mod progress;
#[cfg(test)]
mod session;
#[cfg(test)]
mod snapshot;
#[cfg(test)]
mod track;
