ghost use Rattle.std.specs.Prelude.{◌≡◌, ◌<◌, ◌+◌, ◌++◌, ◌∷◌, [], ℕ, IfOk, length};
ghost use Rattle.clone_workload.specs.Transactions.{change, after_change, value, after_value};
ghost use Rattle.clone_workload.specs.Transactions.{generated, commit, stream};

use crate::words::Words;
use clone_base::VALUE_LIMIT;
use clone_model::{Change, Changes, Value};
use std::alloc::{AllocError, Global};

/// The index of a transaction is below it.
pub const INDEX_LIMIT: u64 = 1 << 20;

/// The most changes that a transaction makes. It makes at least one.
pub const MOST_CHANGES: u32 = 8;

/// How many keys there are in a table. They are below it.
pub const KEYS: u32 = 4_096;

/// How many kinds of changes there are. One of them is a deletion.
pub const KINDS: u32 = 8;

/// The changes of this transaction of the writer, to tables from 1 to `tables`. The index counts
/// the writer's transactions, from 0.
pub fn generated(
    alloc: Global,
    seed: u64,
    writer: u32,
    index: u64,
    tables: u32,
) -> Result<Changes, AllocError>
    requires index { index < INDEX_LIMIT }
    requires tables { 0 < tables }
    ensures { IfOk result (λ changes. changes ≡ generated seed writer index tables) }
{
    let mut words = Words::new(seed, writer, index);
    let count = 1 + words.next() % MOST_CHANGES;
    let mut changes = Changes::new(alloc);
    'changes: for _i in 0..count {
        changes.push(next_change(&mut words, tables))?;
    }
    Ok(changes)
}

/// The change that the next words make.
fn next_change(words: &mut Words, tables: u32) -> Change
    requires tables { 0 < tables }
    ensures change { result ≡ change tables words.old }
    ensures left { words.new ≡ after_change words.old }
{
    let table = 1 + words.next() % tables;
    let key = u64::from(words.next() % KEYS);
    let value = next_value(words);
    Change { table, key, value }
}

/// The value that the next words make, or none where they make a deletion.
fn next_value(words: &mut Words) -> Option<Value>
    ensures value { result ≡ value words.old }
    ensures left { words.new ≡ after_value words.old }
{
    if words.next() % KINDS == 0 {
        return None;
    }
    let length = words.next() as usize % (VALUE_LIMIT + 1);
    let mut bytes = [0; VALUE_LIMIT];
    'bytes: for i in 0..length {
        bytes[i] = (words.next() % 256) as u8;
    }
    Value::new(&bytes[..length])
}

/// The stream of a writer has as many commits as it was asked for, and with one more the next
/// transaction is the last one.
pub fn stream_laws()
    ensures count { (seed writer count tables : ℕ)
        → length (stream seed writer count tables) ≡ count }
    ensures next { (seed writer count tables : ℕ)
        → stream seed writer (count + 1) tables
        ≡ stream seed writer count tables ++ commit seed writer count tables ∷ [] }
{}
