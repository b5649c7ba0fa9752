//! The calls of tables and of transactions, as a donor answers them.

use clone_donor::Donor;
use clone_memdisk::MemDisk;
use clone_model::{BucketCount, TableNumber, Value};
use clone_plain::{Cause, EngineRefusal, Undone};
use std::alloc::Global;

/// A call of a donor.
#[derive(Clone, Copy)]
pub enum Call<'a> {
    // a table and its buckets
    Create(u32, u32),
    // a table
    Drop(u32),
    // a writer and the index of its transaction
    Begin(u32, u64),
    // a transaction, a table, a key and a value
    Put(u32, u32, u64, &'a [u8]),
    // a transaction, a table and a key
    Delete(u32, u32, u64),
    Get(u32, u32, u64),
    // a transaction
    Undo(u32),
    Commit(u32),
}

/// What a call answered that wasn't refused.
#[derive(Debug, PartialEq, Drop)]
pub enum Answer {
    Done,
    // the number of the transaction
    Begun(u32),
    Shown(Option<Value>),
    TakenBack(Undone),
    // the number of commits
    Committed(u64),
}

/// Makes a call.
pub fn ask(alloc: Global, donor: &mut Donor<MemDisk>, call: Call) -> Result<Answer, EngineRefusal> {
    match call {
        Call::Create(table, buckets) => create(donor, table, buckets)?,
        Call::Drop(table) => donor.drop_table(table)?,
        Call::Begin(writer, index) => {
            return Ok(Answer::Begun(donor.begin(alloc, writer, index)?));
        }
        Call::Put(trx, table, key, value) => donor.put(trx, table, key, value)?,
        Call::Delete(trx, table, key) => donor.delete(trx, table, key)?,
        Call::Get(trx, table, key) => return Ok(Answer::Shown(donor.get(trx, table, key)?)),
        Call::Undo(trx) => return Ok(Answer::TakenBack(donor.undo_one(trx)?)),
        Call::Commit(trx) => return Ok(Answer::Committed(donor.commit(trx)?)),
    }
    Ok(Answer::Done)
}

// Makes a table. Numbers that no table or no count of buckets may have aren't asked for.
fn create(donor: &mut Donor<MemDisk>, table: u32, buckets: u32) -> Result<(), EngineRefusal> {
    let (Some(table), Some(buckets)) = (TableNumber::new(table), BucketCount::new(buckets)) else {
        return Err(Cause::NoSuchTable.into());
    };
    donor.create(table, buckets)
}
