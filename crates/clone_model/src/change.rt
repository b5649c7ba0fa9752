use crate::{Changes, Value};

/// A row, and its new value or none.
#[derive(Debug, PartialEq, Eq, Drop)]
pub struct Change {
    /// The number of the row's table.
    pub table: u32,
    /// The key of the row in its table.
    pub key: u64,
    /// The value that the row gets, or none where the row is removed.
    pub value: Option<Value>,
}

/// A transaction that was committed.
#[derive(Debug, Drop)]
pub struct Commit {
    /// The writer whose transaction it was.
    pub writer: u32,
    /// Which of the writer's transactions it was, from 0.
    pub index: u64,
    /// What the transaction changed.
    pub changes: Changes,
}
