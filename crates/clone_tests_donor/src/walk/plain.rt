//! A donor without pages and without a log: tables, open transactions, locks, commits, and the rows
//! that these and the drops leave. Each of its calls answers as the donor does.

use crate::walk::asking::{Answer, Call};
use clone_model::{Change, Changes, Commit, Tables, Value};
use clone_plain::{CHANGE_LIMIT, Cause, TABLE_LIMIT, TRANSACTION_LIMIT, Undone, VALUE_LIMIT};
use std::alloc::{AllocError, Global};
use std::collections::BTreeMap;
use std::test::Fail;

/// The plain donor.
#[derive(Drop)]
pub struct Plain {
    // each with how many buckets it has
    tables: BTreeMap<u32, u32>,
    active: BTreeMap<u32, Commit>,
    // by row, the transaction that holds its lock
    locks: BTreeMap<(u32, u64), u32>,
    rows: Tables,
    /// How many commits there were.
    pub position: u64,
    /// How many tables were dropped.
    pub drops: u64,
    alloc: Global,
}

impl Plain {
    /// No tables, no transactions and no commits.
    pub fn new(alloc: Global) -> Plain {
        Plain {
            tables: BTreeMap::new(alloc),
            active: BTreeMap::new(alloc),
            locks: BTreeMap::new(alloc),
            rows: Tables::new(alloc),
            position: 0,
            drops: 0,
            alloc,
        }
    }

    /// The tables, each with how many buckets it has.
    pub fn tables(&self) -> &BTreeMap<u32, u32> {
        &self.tables
    }

    /// The rows that the commits and the drops leave.
    pub fn rows(&self) -> Result<Vec<(u32, u64, Value)>, AllocError> {
        self.rows.rows(self.alloc)
    }

    /// The first cause against a call, if there is one.
    pub fn check(&self, call: Call) -> Result<(), Cause> {
        match call {
            Call::Create(table, _) => self.check_create(table),
            Call::Drop(table) => self.check_drop(table),
            Call::Begin(_, _) if self.active.len() == TRANSACTION_LIMIT as usize => {
                Err(Cause::TooManyTransactions)
            }
            Call::Begin(_, _) => Ok(()),
            Call::Put(trx, table, key, bytes) => self.check_change(trx, table, key, bytes.len()),
            Call::Delete(trx, table, key) => self.check_change(trx, table, key, 0),
            Call::Get(trx, table, key) => self.check_get(trx, table, key),
            Call::Undo(trx) | Call::Commit(trx) => self.check_open(trx),
        }
    }

    fn check_create(&self, table: u32) -> Result<(), Cause> {
        if self.tables.contains_key(&table) {
            return Err(Cause::TableExists);
        }
        if self.tables.len() == TABLE_LIMIT {
            return Err(Cause::TooManyTables);
        }
        Ok(())
    }

    // A table is in use where a transaction holds the lock of a row of it, the least of these.
    fn check_drop(&self, table: u32) -> Result<(), Cause> {
        self.check_table(table)?;
        let mut least = TRANSACTION_LIMIT;
        for ((locked, _), holder) in &self.locks {
            if *locked == table {
                least = least.min(*holder);
            }
        }
        if least < TRANSACTION_LIMIT {
            return Err(Cause::TableInUse { trx: least });
        }
        Ok(())
    }

    fn check_table(&self, table: u32) -> Result<(), Cause> {
        if self.tables.contains_key(&table) {
            Ok(())
        } else {
            Err(Cause::NoSuchTable)
        }
    }

    fn check_open(&self, trx: u32) -> Result<(), Cause> {
        if self.active.contains_key(&trx) {
            Ok(())
        } else {
            Err(Cause::NoSuchTrx)
        }
    }

    // The value has so many bytes.
    fn check_change(&self, trx: u32, table: u32, key: u64, length: usize) -> Result<(), Cause> {
        self.check_open(trx)?;
        if length > VALUE_LIMIT {
            return Err(Cause::ValueTooLong);
        }
        self.check_table(table)?;
        if self.change_count(trx) == CHANGE_LIMIT {
            return Err(Cause::UndoFull);
        }
        self.check_lock(trx, table, key)
    }

    fn check_get(&self, trx: u32, table: u32, key: u64) -> Result<(), Cause> {
        self.check_open(trx)?;
        self.check_table(table)?;
        self.check_lock(trx, table, key)
    }

    // Another transaction holds the row's lock, or none does.
    fn check_lock(&self, trx: u32, table: u32, key: u64) -> Result<(), Cause> {
        match self.locks.get(&(table, key)) {
            Some(holder) if *holder != trx => Err(Cause::RowLocked { holder: *holder }),
            _ => Ok(()),
        }
    }

    fn change_count(&self, trx: u32) -> usize {
        match self.active.get(&trx) {
            Some(commit) => commit.changes.len(),
            None => 0,
        }
    }

    /// Makes a call against which there is no cause.
    pub fn carry_out(&mut self, call: Call) -> Result<Answer, Fail> {
        match call {
            Call::Create(table, buckets) => {
                self.tables.insert(table, buckets)?;
                Ok(Answer::Done)
            }
            Call::Drop(table) => self.drop_table(table),
            Call::Begin(writer, index) => self.begin(writer, index),
            Call::Put(trx, table, key, bytes) => {
                let value = Some(Value::new(bytes).ok_or("a value is too long")?);
                self.change(trx, Change { table, key, value })
            }
            Call::Delete(trx, table, key) => {
                let value = None;
                self.change(trx, Change { table, key, value })
            }
            Call::Get(trx, table, key) => Ok(self.get(trx, table, key)),
            Call::Undo(trx) => Ok(self.undo_one(trx)),
            Call::Commit(trx) => self.commit(trx),
        }
    }

    // A table is gone, and so are its rows.
    fn drop_table(&mut self, dropped: u32) -> Result<Answer, Fail> {
        let mut left = Tables::new(self.alloc);
        for (table, key, value) in self.rows()? {
            if table != dropped {
                left.set(table, key, value)?;
            }
        }
        self.rows = left;
        let _ = self.tables.remove(&dropped);
        self.drops = self.drops.saturating_add(1);
        Ok(Answer::Done)
    }

    // Begins a transaction, whose number is the least that is free.
    fn begin(&mut self, writer: u32, index: u64) -> Result<Answer, Fail> {
        let trx = self.least_free();
        let changes = Changes::new(self.alloc);
        let commit = Commit {
            writer,
            index,
            changes,
        };
        match self.active.insert(trx, commit) {
            Ok(_) => Ok(Answer::Begun(trx)),
            Err(_) => Err(Fail::from("no memory")),
        }
    }

    fn least_free(&self) -> u32 {
        for trx in 0..TRANSACTION_LIMIT {
            if !self.active.contains_key(&trx) {
                return trx;
            }
        }
        TRANSACTION_LIMIT
    }

    // Makes a change, whose row is locked.
    fn change(&mut self, trx: u32, change: Change) -> Result<Answer, Fail> {
        self.locks.insert((change.table, change.key), trx)?;
        if let Some(commit) = self.active.get_mut(&trx) {
            commit.changes.push(change)?;
        }
        Ok(Answer::Done)
    }

    // The row's value by the transaction's last change of it, or by the commits where there is none.
    fn get(&self, trx: u32, table: u32, key: u64) -> Answer {
        let mut value = self.rows.get(table, key);
        if let Some(commit) = self.active.get(&trx) {
            for change in commit.changes.as_slice() {
                if change.table == table && change.key == key {
                    value = value_of(change);
                }
            }
        }
        Answer::Shown(value)
    }

    // Takes the last change of a transaction back, or ends it.
    fn undo_one(&mut self, trx: u32) -> Answer {
        let Some(left) = self.change_count(trx).checked_sub(1) else {
            let _ = self.active.remove(&trx);
            self.release(trx);
            return Answer::TakenBack(Undone::Ended);
        };
        if let Some(commit) = self.active.get_mut(&trx) {
            let _ = commit.changes.pop();
        }
        Answer::TakenBack(Undone::Left(left.min(u16::MAX as usize) as u16))
    }

    // Commits all changes of a transaction, and answers the new number of commits.
    fn commit(&mut self, trx: u32) -> Result<Answer, Fail> {
        if let Some(commit) = self.active.remove(&trx) {
            self.rows.apply(&commit)?;
        }
        self.release(trx);
        self.position = self.position.saturating_add(1);
        Ok(Answer::Committed(self.position))
    }

    // The transaction holds no lock.
    fn release(&mut self, trx: u32) {
        self.locks.retain(|_, holder| *holder != trx);
    }
}

// The value that a change gives its row.
fn value_of(change: &Change) -> Option<Value> {
    match &change.value {
        Some(value) => Value::new(value.bytes()),
        None => None,
    }
}
