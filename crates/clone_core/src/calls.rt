ghost use Rattle.std.specs.Prelude.{◌^◌, ◌-◌, Ok};
ghost use Rattle.clone_plain.specs.declared.call.EngineCall.TheVariants as call;
ghost use Rattle.clone_plain.specs.declared.call.EngineAnswer.TheVariants as answers;
ghost use Rattle.clone_events.specs.World.{index_in, IsWithin};
ghost use Rattle.clone_core.specs.System.{donor_of};
ghost use Rattle.clone_core.specs.Called.{Called};

use crate::World;
use clone_model::{BucketCount, TableNumber, Value};
use clone_outside::PageDisk;
use clone_plain::{EngineRefusal, Undone};
use std::alloc::Global;

// The calls of the donor, each as an event of the world.
impl<D: PageDisk, R: PageDisk> World<D, R> {
    // Makes a table.
    pub(crate) fn create(
        &mut self,
        table: TableNumber,
        buckets: BucketCount,
    ) -> Result<(), EngineRefusal>
        ensures { Called self.old (call.Create table buckets) (λ _. answers.Create) result
            self.new }
    {
        self.donor.create(table, buckets)
    }

    // Drops a table.
    pub(crate) fn drop_table(&mut self, table: TableNumber) -> Result<(), EngineRefusal>
        ensures { Called self.old (call.Drop table) (λ _. answers.Drop) result self.new }
    {
        self.donor.drop_table(table.get())
    }

    // Begins a transaction of a writer, and counts it. Where none begins nothing is counted.
    pub(crate) fn begin(&mut self, alloc: Global, writer: u32) -> Result<u32, EngineRefusal>
        requires { IsWithin donor_of (2 ^ 63 - 1) self.old }
        ensures { Called self.old (call.Begin writer (index_in self.old.begun writer))
            (λ trx. answers.Begin trx) result self.new }
    {
        let was = self.begun.count(writer);
        self.begun.begin(writer)?;
        let begun = self.donor.begin(alloc, writer, was.unwrap_or(0));
        if begun.is_err() {
            self.begun.restore(writer, was);
        }
        begun
    }

    // Gives a row its value.
    pub(crate) fn put(
        &mut self,
        trx: u32,
        table: TableNumber,
        key: u64,
        value: &[u8],
    ) -> Result<(), EngineRefusal>
        ensures { Called self.old (call.Put trx table key value.now)
            (λ _. answers.Put) result self.new }
    {
        self.donor.put(trx, table.get(), key, value)
    }

    // Removes a row.
    pub(crate) fn delete(
        &mut self,
        trx: u32,
        table: TableNumber,
        key: u64,
    ) -> Result<(), EngineRefusal>
        ensures { Called self.old (call.Delete trx table key) (λ _. answers.Delete) result
            self.new }
    {
        self.donor.delete(trx, table.get(), key)
    }

    // The value of a row.
    pub(crate) fn get(
        &mut self,
        trx: u32,
        table: TableNumber,
        key: u64,
    ) -> Result<Option<Value>, EngineRefusal>
        ensures { Called self.old (call.Get trx table key) (λ value. answers.Get value)
            result self.new }
    {
        let got = self.donor.get(trx, table.get(), key);
        self.donor.laws();
        got
    }

    // Takes the last change of a transaction back, or ends it.
    pub(crate) fn undo_one(&mut self, trx: u32) -> Result<Undone, EngineRefusal>
        ensures { Called self.old (call.UndoOne trx) (λ undone. answers.UndoOne undone) result
            self.new }
    {
        self.donor.undo_one(trx)
    }

    // Commits a transaction.
    pub(crate) fn commit(&mut self, trx: u32) -> Result<u64, EngineRefusal>
        ensures { Called self.old (call.Commit trx) (λ position. answers.Commit position) result
            self.new }
    {
        self.donor.laws();
        self.donor.commit(trx)
    }

    // The flush of a page begins.
    pub(crate) fn flush_begin(&mut self, space: u32, page: u32) -> Result<(), EngineRefusal>
        ensures { Called self.old (call.FlushBegin space page) (λ _. answers.FlushBegin)
            result self.new }
    {
        self.donor.flush_begin(space, page)
    }

    // The first half of a page is written.
    pub(crate) fn flush_half(&mut self, space: u32, page: u32) -> Result<(), EngineRefusal>
        ensures { Called self.old (call.FlushHalf space page) (λ _. answers.FlushHalf)
            result self.new }
    {
        self.donor.flush_half(space, page)
    }

    // The other half of a page is written.
    pub(crate) fn flush_land(&mut self, space: u32, page: u32) -> Result<(), EngineRefusal>
        ensures { Called self.old (call.FlushLand space page) (λ _. answers.FlushLand)
            result self.new }
    {
        self.donor.flush_land(space, page)
    }

    // The dirty page to be flushed next, if there is one.
    pub(crate) fn oldest_dirty(&mut self) -> Option<(u32, u32)>
        ensures { Called self.old call.OldestDirty (λ page. answers.OldestDirty page) (Ok result)
            self.new }
    {
        self.donor.laws();
        self.donor.oldest_dirty()
    }

    // Takes a checkpoint.
    pub(crate) fn checkpoint(&mut self) -> u64
        ensures { Called self.old call.Checkpoint (λ lsn. answers.Checkpoint lsn) (Ok result)
            self.new }
    {
        self.donor.checkpoint()
    }

    // The log's end.
    pub(crate) fn end(&mut self) -> u64
        ensures { Called self.old call.End (λ lsn. answers.End lsn) (Ok result) self.new }
    {
        self.donor.laws();
        self.donor.end()
    }
}
