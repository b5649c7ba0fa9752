use crate::Undone;
use clone_model::{BucketCount, TableNumber, Value};

/// A call of an engine: of its tables, transactions, flushes and checkpoints.
#[derive(Drop)]
pub enum EngineCall {
    /// An empty table is made, with so many buckets.
    Create {
        table: TableNumber,
        buckets: BucketCount,
    },
    /// A table is dropped.
    Drop {
        table: u32,
    },
    /// A transaction begins, which is the one of this index of its writer.
    Begin {
        writer: u32,
        index: u64,
    },
    /// A row gets a value.
    Put {
        trx: u32,
        table: u32,
        key: u64,
        value: Value,
    },
    /// A row is removed.
    Delete {
        trx: u32,
        table: u32,
        key: u64,
    },
    /// A row is read.
    Get {
        trx: u32,
        table: u32,
        key: u64,
    },
    /// The last change of a transaction is taken back.
    UndoOne {
        trx: u32,
    },
    /// A transaction ends, and its changes last.
    Commit {
        trx: u32,
    },
    /// The flush of a page begins.
    FlushBegin {
        space: u32,
        page: u32,
    },
    /// The first half of its image is written.
    FlushHalf {
        space: u32,
        page: u32,
    },
    /// The other half is.
    FlushLand {
        space: u32,
        page: u32,
    },
    /// Which dirty page has waited for its flush the longest.
    OldestDirty,
    /// A checkpoint is taken.
    Checkpoint,
    /// Where the log ends.
    End,
}

/// What an engine answers to a call that is carried out.
#[derive(Drop)]
pub enum EngineAnswer {
    Create,
    Drop,
    /// The transaction's number.
    Begin { trx: u32 },
    Put,
    Delete,
    /// The row's value, or none where there is no row.
    Get { value: Option<Value> },
    /// How many changes are left, or that the transaction has ended.
    UndoOne { undone: Undone },
    /// How many commits there are then.
    Commit { position: u64 },
    FlushBegin,
    FlushHalf,
    FlushLand,
    /// The page's space and its number there, or none where no page waits.
    OldestDirty { page: Option<(u32, u32)> },
    /// The LSN of the checkpoint.
    Checkpoint { lsn: u64 },
    /// The LSN of the log's end.
    End { lsn: u64 },
}
