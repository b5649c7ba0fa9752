//! A donor without pages and without a log: the open transactions, and the commits in their order.

use clone_model::{Change, Changes, Commit, Value, fold};
use std::alloc::Global;
use std::collections::BTreeMap;
use std::test::Fail;

/// The plain donor.
#[derive(Drop)]
pub struct Plain {
    active: BTreeMap<u32, Commit>,
    commits: Vec<Commit>,
    alloc: Global,
}

impl Plain {
    /// No transactions and no commits.
    pub fn new(alloc: Global) -> Plain {
        Plain {
            active: BTreeMap::new(alloc),
            commits: Vec::new(alloc),
            alloc,
        }
    }

    /// A transaction begins.
    pub fn begin(&mut self, trx: u32, writer: u32, index: u64) -> Result<(), Fail> {
        let commit = Commit {
            writer,
            index,
            changes: Changes::new(self.alloc),
        };
        match self.active.insert(trx, commit) {
            Ok(_) => Ok(()),
            Err(_) => Err(Fail::from("no memory")),
        }
    }

    /// A transaction makes a change.
    pub fn change(&mut self, trx: u32, change: Change) -> Result<(), Fail> {
        if let Some(commit) = self.active.get_mut(&trx) {
            commit.changes.push(change)?;
        }
        Ok(())
    }

    /// The last change of a transaction is taken back.
    pub fn undo(&mut self, trx: u32) {
        if let Some(commit) = self.active.get_mut(&trx) {
            let _ = commit.changes.pop();
        }
    }

    /// A transaction without changes ends.
    pub fn end(&mut self, trx: u32) {
        let _ = self.active.remove(&trx);
    }

    /// A transaction commits.
    pub fn commit(&mut self, trx: u32) -> Result<(), Fail> {
        let Some(commit) = self.active.remove(&trx) else {
            return Err(Fail::from("no such transaction"));
        };
        match self.commits.push(commit) {
            Ok(()) => Ok(()),
            Err(_) => Err(Fail::from("no memory")),
        }
    }

    /// The rows that the first commits leave, so many of them.
    pub fn rows_at(&self, position: u64) -> Result<Vec<(u32, u64, Value)>, Fail> {
        let Some(first) = self.commits.get(..position as usize) else {
            return Err(Fail::from("not so many commits"));
        };
        Ok(fold(self.alloc, first)?.rows(self.alloc)?)
    }
}
