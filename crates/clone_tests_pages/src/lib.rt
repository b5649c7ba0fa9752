//! The tests of what changes pages: frames, mini-transactions of tables and of transactions, and
//! recovery. They stand apart, since a crate with tests is proved twice.
#![tactic(auto)]

#[cfg(test)]
mod chains;
#[cfg(test)]
mod disks;
#[cfg(test)]
mod mtr;
#[cfg(test)]
mod pool;
#[cfg(test)]
mod records;
#[cfg(test)]
mod recover;
