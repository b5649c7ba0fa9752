ghost use Rattle.std.specs.Prelude.{◌≡◌, ◌≢◌, Err};
ghost use Rattle.clone_plain.specs.declared.call.EngineCall.TheVariants as call;
ghost use Rattle.clone_plain.specs.declared.call.EngineAnswer.TheVariants as answers;
ghost use Rattle.clone_plain.specs.declared.refusal.EngineRefusal.TheVariants.{NoMemory};
ghost use Rattle.clone_engine.specs.Steps.{answer_of};
ghost use Rattle.clone_engine.specs.Acts.{EngineActs};

use crate::Donor;
use clone_model::{BucketCount, TableNumber, Value};
use clone_outside::PageDisk;
use clone_plain::{EngineRefusal, Undone};
use std::alloc::Global;

// The calls of transactions.
impl<D: PageDisk> Donor<D> {
    /// Makes an empty table, also while a session stands.
    pub fn create(&mut self, table: TableNumber, buckets: BucketCount) -> Result<(), EngineRefusal>
        ensures acts { EngineActs (call.Create table buckets)
            (answer_of (λ _. answers.Create) result) self.old self.new }
    {
        self.engine.create(table, buckets, &mut self.disk)
    }

    /// Drops a table with its pages and its file, unless a session stands. Where the disk fails to
    /// remove the file, the table is gone all the same.
    pub fn drop_table(&mut self, table: u32) -> Result<(), EngineRefusal>
        ensures acts { EngineActs (call.Drop table)
            (answer_of (λ _. answers.Drop) result) self.old self.new }
    {
        self.engine.drop_table(table, &mut self.disk)
    }

    /// Begins a transaction of a writer, which is its transaction of this index, and answers the
    /// transaction's number.
    pub fn begin(&mut self, alloc: Global, writer: u32, index: u64) -> Result<u32, EngineRefusal>
        ensures acts { EngineActs (call.Begin writer index)
            (answer_of (λ trx. answers.Begin trx) result) self.old self.new }
    {
        self.engine.begin(alloc, writer, index, &mut self.disk)
    }

    /// Gives a row its value, and locks it.
    pub fn put(&mut self, trx: u32, table: u32, key: u64, value: &[u8]) -> Result<(), EngineRefusal>
        ensures acts { EngineActs (call.Put trx table key value.now)
            (answer_of (λ _. answers.Put) result) self.old self.new }
    {
        self.engine.put(trx, table, key, value, &mut self.disk)
    }

    /// Removes a row, and locks it.
    pub fn delete(&mut self, trx: u32, table: u32, key: u64) -> Result<(), EngineRefusal>
        ensures acts { EngineActs (call.Delete trx table key)
            (answer_of (λ _. answers.Delete) result) self.old self.new }
    {
        self.engine.delete(trx, table, key, &mut self.disk)
    }

    /// The value of a row. This takes no memory, and writes nothing.
    pub fn get(&mut self, trx: u32, table: u32, key: u64) -> Result<Option<Value>, EngineRefusal>
        ensures acts { EngineActs (call.Get trx table key)
            (answer_of (λ value. answers.Get value) result) self.old self.new }
        ensures memory { result ≢ Err NoMemory }
    {
        self.engine.get(trx, table, key, &mut self.disk)
    }

    /// Takes the last change of a transaction back, or ends a transaction without changes. This
    /// takes no memory.
    pub fn undo_one(&mut self, trx: u32) -> Result<Undone, EngineRefusal>
        ensures acts { EngineActs (call.UndoOne trx)
            (answer_of (λ undone. answers.UndoOne undone) result) self.old self.new }
        ensures memory { result ≢ Err NoMemory }
    {
        self.engine.undo_one(trx, &mut self.disk)
    }

    /// Commits a transaction, and answers the new number of commits. This takes no memory.
    pub fn commit(&mut self, trx: u32) -> Result<u64, EngineRefusal>
        ensures acts { EngineActs (call.Commit trx)
            (answer_of (λ position. answers.Commit position) result) self.old self.new }
        ensures memory { result ≢ Err NoMemory }
    {
        self.engine.commit(trx, &mut self.disk)
    }
}
