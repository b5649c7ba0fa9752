ghost use Rattle.std.specs.Prelude.{◌≡◌, ◌≢◌, ◌^◌, ◌-◌, IfOk, OnErr};
ghost use Rattle.std.specs.String.{string_bytes};
ghost use Rattle.clone_outside.specs.declared.disk.DiskOrder.{DiskOrder};
ghost use Rattle.clone_outside.specs.declared.disk.DiskOrder.TheVariants.{Again};
ghost use Rattle.clone_script.specs.declared.lines.Line.TheVariants as lines;
ghost use Rattle.clone_events.specs.Events.{ordered, to_donor, to_recipient};
ghost use Rattle.clone_events.specs.World.{IsWithin};
ghost use Rattle.clone_core.specs.System.{donor_of};
ghost use Rattle.clone_core.specs.Lines.{Answers, BreaksOff};
ghost use Rattle.clone_core.specs.Called.{Cleans, Notes, Sets};

use crate::World;
use crate::texts::{
    answered, begun_text, committed_text, drop_refused, refused, undone_text, value_shown,
};
use clone_model::{BucketCount, TableNumber};
use clone_outside::{DiskOrder, PageDisk, give_order};
use clone_plain::{Cause, EngineRefusal};
use std::alloc::{AllocError, Global};

// What each line of a script does, and its answer, which is made before its call.
impl<D: PageDisk, R: PageDisk> World<D, R> {
    // Makes a table.
    pub(crate) fn create_line(
        &mut self,
        alloc: Global,
        table: TableNumber,
        buckets: BucketCount,
    ) -> Result<String, AllocError>
        ensures ok { IfOk result (λ text. Answers self.old (lines.Create table buckets)
            (string_bytes text) self.new) }
        ensures err { OnErr result (BreaksOff self.old (lines.Create table buckets) self.new) }
    {
        let text = String::from_str(alloc, "created")?;
        let called = self.create(table, buckets);
        answered(alloc, called, text)
    }

    // Drops a table. The text of a failure of the disk is made ahead, since the table may be gone
    // then.
    pub(crate) fn drop_line(
        &mut self,
        alloc: Global,
        table: TableNumber,
    ) -> Result<String, AllocError>
        ensures ok { IfOk result (λ text. Answers self.old (lines.Drop table)
            (string_bytes text) self.new) }
        ensures err { OnErr result (BreaksOff self.old (lines.Drop table) self.new) }
    {
        let text = String::from_str(alloc, "dropped")?;
        let fault = refused(alloc, Cause::DiskFault.into())?;
        match self.drop_table(table) {
            Ok(()) => Ok(text),
            Err(refusal) => drop_refused(alloc, refusal, fault),
        }
    }

    // Begins a transaction.
    pub(crate) fn begin_line(&mut self, alloc: Global, writer: u32) -> Result<String, AllocError>
        requires { IsWithin donor_of (2 ^ 63 - 1) self.old }
        ensures ok { IfOk result (λ text. Answers self.old (lines.Begin writer) (string_bytes text)
            self.new) }
        ensures err { OnErr result (BreaksOff self.old (lines.Begin writer) self.new) }
    {
        let text = begun_text(alloc, &self.donor)?;
        let called = self.begin(alloc, writer);
        answered(alloc, called, text)
    }

    // Gives a row its value.
    pub(crate) fn put_line(
        &mut self,
        alloc: Global,
        trx: u32,
        table: TableNumber,
        key: u64,
        value: &[u8],
    ) -> Result<String, AllocError>
        ensures ok { IfOk result (λ text. Answers self.old (lines.Put trx table key value.now)
            (string_bytes text) self.new) }
        ensures err { OnErr result
            (BreaksOff self.old (lines.Put trx table key value.now) self.new) }
    {
        let text = String::from_str(alloc, "ok")?;
        let called = self.put(trx, table, key, value);
        answered(alloc, called, text)
    }

    // Removes a row.
    pub(crate) fn delete_line(
        &mut self,
        alloc: Global,
        trx: u32,
        table: TableNumber,
        key: u64,
    ) -> Result<String, AllocError>
        ensures ok { IfOk result (λ text. Answers self.old (lines.Delete trx table key)
            (string_bytes text) self.new) }
        ensures err { OnErr result (BreaksOff self.old (lines.Delete trx table key) self.new) }
    {
        let text = String::from_str(alloc, "ok")?;
        let called = self.delete(trx, table, key);
        answered(alloc, called, text)
    }

    // Shows the value of a row.
    pub(crate) fn get_line(
        &mut self,
        alloc: Global,
        trx: u32,
        table: TableNumber,
        key: u64,
    ) -> Result<String, AllocError>
        ensures ok { IfOk result (λ text. Answers self.old (lines.Get trx table key)
            (string_bytes text) self.new) }
        ensures err { OnErr result (BreaksOff self.old (lines.Get trx table key) self.new) }
    {
        match self.get(trx, table, key) {
            Ok(value) => value_shown(alloc, value.as_ref()),
            Err(refusal) => refused(alloc, refusal),
        }
    }

    // Takes the last change of a transaction back, or ends it.
    pub(crate) fn undo_line(&mut self, alloc: Global, trx: u32) -> Result<String, AllocError>
        ensures ok { IfOk result (λ text. Answers self.old (lines.Undo trx) (string_bytes text)
            self.new) }
        ensures err { OnErr result (BreaksOff self.old (lines.Undo trx) self.new) }
    {
        let text = undone_text(alloc, &self.donor, trx)?;
        let called = self.undo_one(trx);
        answered(alloc, called, text)
    }

    // Commits a transaction.
    pub(crate) fn commit_line(&mut self, alloc: Global, trx: u32) -> Result<String, AllocError>
        requires { IsWithin donor_of (2 ^ 63 - 1) self.old }
        ensures ok { IfOk result (λ text. Answers self.old (lines.Commit trx) (string_bytes text)
            self.new) }
        ensures err { OnErr result (BreaksOff self.old (lines.Commit trx) self.new) }
    {
        let text = committed_text(alloc, &self.donor)?;
        let called = self.commit(trx);
        answered(alloc, called, text)
    }

    // Begins a transaction, gives a row its value in it, and commits it.
    pub(crate) fn set_line(
        &mut self,
        alloc: Global,
        writer: u32,
        table: TableNumber,
        key: u64,
        value: &[u8],
    ) -> Result<String, AllocError>
        requires { IsWithin donor_of (2 ^ 63 - 1) self.old }
        ensures ok { IfOk result (λ text. Answers self.old (lines.Set writer table key value.now)
            (string_bytes text) self.new) }
        ensures err { OnErr result
            (BreaksOff self.old (lines.Set writer table key value.now) self.new) }
    {
        let text = committed_text(alloc, &self.donor)?;
        let called = self.set(alloc, writer, table, key, value);
        answered(alloc, called, text)
    }

    // Sets a row in a transaction of its own. Where its change is refused the transaction stays
    // open.
    fn set(
        &mut self,
        alloc: Global,
        writer: u32,
        table: TableNumber,
        key: u64,
        value: &[u8],
    ) -> Result<u64, EngineRefusal>
        requires { IsWithin donor_of (2 ^ 63 - 1) self.old }
        ensures { Sets self.old writer table key value.now result self.new }
    {
        let trx = self.begin(alloc, writer)?;
        self.put(trx, table, key, value)?;
        self.commit(trx)
    }

    // The flush of a page begins.
    pub(crate) fn flush_line(
        &mut self,
        alloc: Global,
        space: u32,
        page: u32,
    ) -> Result<String, AllocError>
        ensures ok { IfOk result (λ text. Answers self.old (lines.Flush space page)
            (string_bytes text) self.new) }
        ensures err { OnErr result (BreaksOff self.old (lines.Flush space page) self.new) }
    {
        let text = String::from_str(alloc, "begun")?;
        let called = self.flush_begin(space, page);
        answered(alloc, called, text)
    }

    // The first half of a page is written.
    pub(crate) fn half_line(
        &mut self,
        alloc: Global,
        space: u32,
        page: u32,
    ) -> Result<String, AllocError>
        ensures ok { IfOk result (λ text. Answers self.old (lines.Half space page)
            (string_bytes text) self.new) }
        ensures err { OnErr result (BreaksOff self.old (lines.Half space page) self.new) }
    {
        let text = String::from_str(alloc, "half")?;
        let called = self.flush_half(space, page);
        answered(alloc, called, text)
    }

    // The other half of a page is written.
    pub(crate) fn land_line(
        &mut self,
        alloc: Global,
        space: u32,
        page: u32,
    ) -> Result<String, AllocError>
        ensures ok { IfOk result (λ text. Answers self.old (lines.Land space page)
            (string_bytes text) self.new) }
        ensures err { OnErr result (BreaksOff self.old (lines.Land space page) self.new) }
    {
        let text = String::from_str(alloc, "landed")?;
        let called = self.flush_land(space, page);
        answered(alloc, called, text)
    }

    // Flushes each dirty page, the oldest first.
    pub(crate) fn clean_line(&mut self, alloc: Global) -> Result<String, AllocError>
        ensures ok { IfOk result (λ text. Answers self.old lines.Clean (string_bytes text)
            self.new) }
        ensures err { OnErr result (BreaksOff self.old lines.Clean self.new) }
    {
        match self.clean() {
            Ok(landed) => format!(in alloc; "cleaned {landed}"),
            Err(refusal) => refused(alloc, refusal),
        }
    }

    // Flushes the oldest dirty page until there is none, and answers how many landed.
    fn clean(&mut self) -> Result<u64, EngineRefusal>
        ensures { Cleans self.old result self.new }
    {
        self.donor.laws();
        let mut landed = 0;
        while let Some((space, page)) = self.oldest_dirty() {
            self.flush_begin(space, page)?;
            self.flush_half(space, page)?;
            self.flush_land(space, page)?;
            landed += 1;
        }
        Ok(landed)
    }

    // Takes a checkpoint.
    pub(crate) fn checkpoint_line(&mut self, alloc: Global) -> Result<String, AllocError>
        ensures ok { IfOk result (λ text. Answers self.old lines.Checkpoint (string_bytes text)
            self.new) }
        ensures err { OnErr result (BreaksOff self.old lines.Checkpoint self.new) }
    {
        let lsn = self.checkpoint();
        format!(in alloc; "checkpoint {lsn}")
    }

    // Shows the log's end.
    pub(crate) fn lsn_line(&mut self, alloc: Global) -> Result<String, AllocError>
        ensures ok { IfOk result (λ text. Answers self.old lines.Lsn (string_bytes text) self.new) }
        ensures err { OnErr result (BreaksOff self.old lines.Lsn self.new) }
    {
        let lsn = self.end();
        format!(in alloc; "lsn {lsn}")
    }

    // Gives the donor's disk an order.
    pub(crate) fn donor_order_line(
        &mut self,
        alloc: Global,
        order: DiskOrder,
    ) -> Result<String, AllocError>
        requires { order ≢ Again }
        ensures ok { IfOk result (λ text. Notes self.old (ordered to_donor order)
            (string_bytes text) self.new) }
        ensures err { OnErr result (self.new ≡ self.old) }
    {
        let text = String::from_str(alloc, "noted")?;
        self.donor.order(order)?;
        Ok(text)
    }

    // Gives the recipient's disk an order.
    pub(crate) fn recipient_order_line(
        &mut self,
        alloc: Global,
        order: DiskOrder,
    ) -> Result<String, AllocError>
        requires { order ≢ Again }
        ensures ok { IfOk result (λ text. Notes self.old (ordered to_recipient order)
            (string_bytes text) self.new) }
        ensures err { OnErr result (self.new ≡ self.old) }
    {
        let text = String::from_str(alloc, "noted")?;
        give_order(&mut self.recipient, order)?;
        Ok(text)
    }
}
