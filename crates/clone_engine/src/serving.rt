ghost use Rattle.std.specs.Prelude.{◌≡◌, ◌≢◌, Err, None, unwrap_or};
ghost use Rattle.clone_plain.specs.declared.call.EngineCall.TheVariants as call;
ghost use Rattle.clone_plain.specs.Causes.{no_table};
ghost use Rattle.clone_plain.specs.declared.call.EngineAnswer.TheVariants as answers;
ghost use Rattle.clone_plain.specs.declared.refusal.Cause.TheVariants.{CloneRunning};
ghost use Rattle.clone_plain.specs.declared.refusal.EngineRefusal.TheVariants.{NoMemory};
ghost use Rattle.clone_engine.specs.Acts.{EngineActs};
ghost use Rattle.clone_engine.specs.Donor.{IsDonor};
ghost use Rattle.clone_engine.specs.Growth.{KeepsPages, Makes};
ghost use Rattle.clone_engine.specs.Over.{over};
ghost use Rattle.clone_engine.specs.Steps.{answer_of, left_by, left_unmade};

use crate::Engine;
use clone_flush::Flusher;
use clone_model::{BucketCount, TableNumber, Value};
use clone_outside::PageDisk;
use clone_plain::{Cause, EngineRefusal, Undone};
use clone_trx::Transactions;
use std::alloc::Global;

// The calls of transactions.
impl Engine {
    /// Makes an empty table with a file of its own, also while a session stands.
    pub fn create<D: PageDisk>(
        &mut self,
        table: TableNumber,
        buckets: BucketCount,
        disk: &mut D,
    ) -> Result<(), EngineRefusal>
        requires donor { IsDonor (over self.old (D.state disk.old)) }
        ensures acts { EngineActs (call.Create table buckets)
            (answer_of (λ _. answers.Create) result)
            (over self.old (D.state disk.old)) (over self.new (D.state disk.new)) }
    {
        self.make_table(table, buckets, disk)
    }

    // Makes an empty table, with a file of its own.
    fn make_table<D: PageDisk>(
        &mut self,
        table: TableNumber,
        buckets: BucketCount,
        disk: &mut D,
    ) -> Result<(), EngineRefusal>
        requires donor { IsDonor (over self.old (D.state disk.old)) }
        ensures makes { Makes (call.Create table buckets)
            (over self.old (D.state disk.old)).engine (over self.new (D.state disk.new)).engine
            (answer_of (λ _. answers.Create) result) }
        ensures keeps { KeepsPages (over self.old (D.state disk.old)).engine
            (over self.new (D.state disk.new)).engine }
        ensures same { self.new.cloning ≡ self.old.cloning }
    {
        self.transactions.laws();
        self.buffer.laws();
        // a table's number is in its range
        let space = table.get();
        if self.flusher.file(space).is_some() {
            return Err(Cause::TableExists.into());
        }
        self.flusher.file_made(space, buckets.get())?;
        let made = self
            .transactions
            .create(&mut self.buffer, table, buckets, disk);
        self.buffer.laws();
        forget_unmade(&mut self.flusher, made, space);
        made
    }

    /// Drops a table with its pages and its file, unless a session stands. Refused where there is
    /// none, where an open transaction holds the lock of a row of it, and where a page of it is on
    /// its way to the disk. Where the disk fails to remove the file, the table is gone all the same.
    pub fn drop_table<D: PageDisk>(&mut self, table: u32, disk: &mut D) -> Result<(), EngineRefusal>
        requires donor { IsDonor (over self.old (D.state disk.old)) }
        ensures acts { EngineActs (call.Drop table)
            (answer_of (λ _. answers.Drop) result)
            (over self.old (D.state disk.old)) (over self.new (D.state disk.new)) }
    {
        if let Some(session) = self.cloning.session() {
            return Err(self.kept_by(table, session).into());
        }
        self.cloning.laws();
        self.give_up_table(table, disk)
    }

    // Why a table isn't dropped while this session stands: there is none, or the session keeps it.
    fn kept_by(&self, table: u32, session: u64) -> Cause
        ensures { result
            ≡ unwrap_or (no_table self.now.transactions table) (CloneRunning session) }
    {
        if self.transactions.has_table(table) {
            Cause::CloneRunning { session }
        } else {
            Cause::NoSuchTable
        }
    }

    // Drops a table with its pages and its file.
    fn give_up_table<D: PageDisk>(&mut self, table: u32, disk: &mut D) -> Result<(), EngineRefusal>
        requires donor { IsDonor (over self.old (D.state disk.old)) }
        ensures makes { Makes (call.Drop table)
            (over self.old (D.state disk.old)).engine (over self.new (D.state disk.new)).engine
            (answer_of (λ _. answers.Drop) result) }
        ensures same { self.new.cloning ≡ self.old.cloning }
    {
        self.transactions.laws();
        self.buffer.laws();
        self.transactions.check_drop(table)?;
        if self.flusher.write_under_way(table) {
            return Err(Cause::InFlight.into());
        }
        let dropped = self.transactions.drop_table(&mut self.buffer, table, disk);
        self.buffer.laws();
        forget_dropped(&mut self.flusher, &self.transactions, table);
        dropped
    }

    /// Begins a transaction of a writer, which is its transaction of this index, and answers the
    /// transaction's number.
    pub fn begin<D: PageDisk>(
        &mut self,
        alloc: Global,
        writer: u32,
        index: u64,
        disk: &mut D,
    ) -> Result<u32, EngineRefusal>
        requires donor { IsDonor (over self.old (D.state disk.old)) }
        ensures acts { EngineActs (call.Begin writer index)
            (answer_of (λ trx. answers.Begin trx) result)
            (over self.old (D.state disk.old)) (over self.new (D.state disk.new)) }
    {
        self.transactions.laws();
        self.buffer.laws();
        let begun = self
            .transactions
            .begin(alloc, &mut self.buffer, writer, index, disk);
        self.buffer.laws();
        begun
    }

    /// Gives a row its value, and locks it.
    pub fn put<D: PageDisk>(
        &mut self,
        trx: u32,
        table: u32,
        key: u64,
        value: &[u8],
        disk: &mut D,
    ) -> Result<(), EngineRefusal>
        requires donor { IsDonor (over self.old (D.state disk.old)) }
        ensures acts { EngineActs (call.Put trx table key value.now)
            (answer_of (λ _. answers.Put) result)
            (over self.old (D.state disk.old)) (over self.new (D.state disk.new)) }
    {
        self.transactions.laws();
        self.buffer.laws();
        let changed = self
            .transactions
            .put(&mut self.buffer, trx, table, key, value, disk);
        self.buffer.laws();
        changed
    }

    /// Removes a row, and locks it.
    pub fn delete<D: PageDisk>(
        &mut self,
        trx: u32,
        table: u32,
        key: u64,
        disk: &mut D,
    ) -> Result<(), EngineRefusal>
        requires donor { IsDonor (over self.old (D.state disk.old)) }
        ensures acts { EngineActs (call.Delete trx table key)
            (answer_of (λ _. answers.Delete) result)
            (over self.old (D.state disk.old)) (over self.new (D.state disk.new)) }
    {
        self.transactions.laws();
        self.buffer.laws();
        let changed = self
            .transactions
            .delete(&mut self.buffer, trx, table, key, disk);
        self.buffer.laws();
        changed
    }

    /// The value of a row. This takes no memory, and writes nothing.
    pub fn get<D: PageDisk>(
        &mut self,
        trx: u32,
        table: u32,
        key: u64,
        disk: &mut D,
    ) -> Result<Option<Value>, EngineRefusal>
        requires donor { IsDonor (over self.old (D.state disk.old)) }
        ensures acts { EngineActs (call.Get trx table key)
            (answer_of (λ value. answers.Get value) result)
            (over self.old (D.state disk.old)) (over self.new (D.state disk.new)) }
        ensures memory { result ≢ Err NoMemory }
    {
        self.transactions.laws();
        self.buffer.laws();
        let value = self
            .transactions
            .get(&mut self.buffer, trx, table, key, disk);
        self.buffer.laws();
        value
    }

    /// Takes the last change of a transaction back, or ends a transaction without changes. This
    /// takes no memory.
    pub fn undo_one<D: PageDisk>(&mut self, trx: u32, disk: &mut D) -> Result<Undone, EngineRefusal>
        requires donor { IsDonor (over self.old (D.state disk.old)) }
        ensures acts { EngineActs (call.UndoOne trx)
            (answer_of (λ undone. answers.UndoOne undone) result)
            (over self.old (D.state disk.old)) (over self.new (D.state disk.new)) }
        ensures memory { result ≢ Err NoMemory }
    {
        self.transactions.laws();
        self.buffer.laws();
        let undone = self.transactions.undo_one(&mut self.buffer, trx, disk);
        self.buffer.laws();
        undone
    }

    /// Commits a transaction, and answers the new number of commits. This takes no memory.
    pub fn commit<D: PageDisk>(&mut self, trx: u32, disk: &mut D) -> Result<u64, EngineRefusal>
        requires donor { IsDonor (over self.old (D.state disk.old)) }
        ensures acts { EngineActs (call.Commit trx)
            (answer_of (λ position. answers.Commit position) result)
            (over self.old (D.state disk.old)) (over self.new (D.state disk.new)) }
        ensures memory { result ≢ Err NoMemory }
    {
        self.transactions.laws();
        self.buffer.laws();
        let committed = self.transactions.commit(&mut self.buffer, trx, disk);
        self.buffer.laws();
        committed
    }
}

// The file of a table that was dropped isn't known any more.
fn forget_dropped(flusher: &mut Flusher, transactions: &Transactions, table: u32)
    ensures { flusher.new ≡ left_by transactions.now table flusher.old }
{
    if !transactions.has_table(table) {
        flusher.file_gone(table);
    }
}

// The file of a table that wasn't made isn't known any more.
fn forget_unmade(flusher: &mut Flusher, made: Result<(), EngineRefusal>, table: u32)
    ensures { flusher.new ≡ left_unmade made table flusher.old }
{
    if made.is_err() {
        flusher.file_gone(table);
    }
}
