//! The tests of the crates at the bottom: bytes and texts, pages and their places on a disk, and
//! what lies outside.
//! They stand apart, since a crate with tests is proved twice.
#![tactic(auto)]

#[cfg(test)]
mod bytes;
#[cfg(test)]
mod lay;
#[cfg(test)]
mod memdisk;
#[cfg(test)]
mod model;
#[cfg(test)]
mod outside;
#[cfg(test)]
mod page;
