ghost use Rattle.std.specs.Prelude.{IfErr, IfOk, IsErrOf, IsSome, IsTrue, MatchResult, None, OnErr, OnOk, Some, [], length, true, ◌==◌, ◌≡◌};
ghost use Rattle.std.specs.declared.option.Option.{Option};
ghost use Rattle.std.specs.FinMap as finite;
ghost use Rattle.clone_outside.specs.Disk.{DiskImage};
ghost use Rattle.clone_outside.specs.DiskCalls.{Reads};
ghost use Rattle.clone_undo.specs.Changes.{records_of_change};
ghost use Rattle.clone_buffer.specs.Buffered.{image_of};
ghost use Rattle.clone_plain.specs.Causes.{change_cause};
ghost use Rattle.clone_plain.specs.Donor.{changes_of};
ghost use Rattle.clone_plain.specs.Effects.{Changes, delete_of, put_of};
ghost use Rattle.clone_plain.specs.declared.refusal.Cause.TheVariants.{DiskFault};
ghost use Rattle.clone_plain.specs.declared.refusal.EngineRefusal.TheVariants.{Because};
ghost use Rattle.clone_trx.specs.Calls.{change_at, change_way, row_page, told_way};
ghost use Rattle.clone_trx.specs.Holding.{IsRefused};
ghost use Rattle.clone_trx.specs.Placing.{IsPlaced, IsReady, change_call};
ghost use Rattle.clone_trx.specs.Ways.{Answers, Carries, Goes, StaysStanding, Writes, page_in};
ghost use Rattle.clone_trx.specs.Kept.{IsSpot, IsTargetFor, Keeps, KeptBetween, MayChange};
ghost use Rattle.clone_trx.specs.Sound.{IsKept};
ghost use Rattle.clone_trx.specs.RowSlots.{page_number};
ghost use Rattle.clone_row.specs.Slots as rows;

use crate::Transactions;
use crate::held::Held;
use crate::hold::{check_room, first_record, records_from, write_held};
use crate::slot::before_on;
use crate::walk::{Course, Spot};
use clone_buffer::Buffer;
use clone_model::{Change, Value};
use clone_mtr::Record;
use clone_outside::PageDisk;
use clone_plain::{CHANGE_LIMIT, Cause, EngineRefusal, VALUE_LIMIT};
use clone_row::slot_image;
use clone_undo::{UndoRecord, change_records, first_change_records, header_page, record_page};
use std::alloc::AllocError;

// Where a change of a row goes.
#[derive(Drop)]
pub(crate) struct ChangeTarget {
    // the row's slot, and what it holds
    pub(crate) entry: UndoRecord,
    // whether the page of the row is new
    pub(crate) is_new: bool,
    // how many changes the transaction has made
    pub(crate) count: u16,
}

impl Transactions {
    /// Gives a row its value and locks it. The causes for which it is refused, in their order: no
    /// such transaction, a value above 64 bytes, no such table, 160 changes, the lock of another
    /// transaction, no frame for a page of the row's chain, no frame for the undo pages, no room in
    /// the log. Where the chain is full it gets a new page first, and before the undo pages come no
    /// frame for the system page or for the new one, a space that has all its pages, and no room in
    /// the log for the new page. A new page stays, whatever comes behind it.
    pub fn put<D: PageDisk>(
        &mut self,
        buffer: &mut Buffer,
        trx: u32,
        table: u32,
        key: u64,
        value: &[u8],
        disk: &mut D,
    ) -> Result<(), EngineRefusal>
        requires kept { Keeps self.old buffer.old }
        ensures answer { Answers (change_cause self.old trx table key (length value.now))
            (change_way self.old trx (put_of table key value.now))
            self.old self.new buffer.old buffer.new result
            (λ _. Changes self.old trx (put_of table key value.now) self.new) }
        ensures kept { Keeps self.new buffer.new }
        ensures between { KeptBetween self.old buffer.old buffer.new }
        ensures reads { Reads (IsErrOf result (Because DiskFault))
            (D.state disk.old) (D.state disk.new) }
        ensures stands { StaysStanding buffer.old buffer.new
            (D.state disk.old).told (D.state disk.new).told }
    {
        let bucket = self.check_change(trx, table, key, value.len())?;
        let Some(value) = Value::new(value) else {
            unreachable!();
        };
        let change = Change {
            table,
            key,
            value: Some(value),
        };
        self.change(buffer, trx, change, bucket, disk)
    }

    /// Removes a row and locks it. An absent row may be removed. The causes are those of `put`, but
    /// for the value.
    pub fn delete<D: PageDisk>(
        &mut self,
        buffer: &mut Buffer,
        trx: u32,
        table: u32,
        key: u64,
        disk: &mut D,
    ) -> Result<(), EngineRefusal>
        requires kept { Keeps self.old buffer.old }
        ensures answer { Answers (change_cause self.old trx table key 0)
            (change_way self.old trx (delete_of table key))
            self.old self.new buffer.old buffer.new result
            (λ _. Changes self.old trx (delete_of table key) self.new) }
        ensures kept { Keeps self.new buffer.new }
        ensures between { KeptBetween self.old buffer.old buffer.new }
        ensures reads { Reads (IsErrOf result (Because DiskFault))
            (D.state disk.old) (D.state disk.new) }
        ensures stands { StaysStanding buffer.old buffer.new
            (D.state disk.old).told (D.state disk.new).told }
    {
        let bucket = self.check_change(trx, table, key, 0)?;
        let change = Change {
            table,
            key,
            value: None,
        };
        self.change(buffer, trx, change, bucket, disk)
    }

    // The page of the row's bucket, or the first cause of the plain donor against a change of it
    // whose value has so many bytes.
    fn check_change(&self, trx: u32, table: u32, key: u64, long: usize) -> Result<u32, Cause>
        ensures { MatchResult result
            (λ bucket. (change_cause self.now trx table key long ≡ None)
            × (bucket ≡ page_number self.now table key))
            (λ cause. change_cause self.now trx table key long ≡ Some cause) }
    {
        let Some(commit) = self.active.get(trx) else {
            return Err(Cause::NoSuchTrx);
        };
        if long > VALUE_LIMIT {
            return Err(Cause::ValueTooLong);
        }
        let Some(bucket) = self.bucket_of(table, key) else {
            return Err(Cause::NoSuchTable);
        };
        if commit.changes.len() == CHANGE_LIMIT {
            return Err(Cause::UndoFull);
        }
        self.check_lock(trx, table, key)?;
        Ok(bucket)
    }

    // Makes a change against which there is no cause of the plain donor.
    fn change<D: PageDisk>(
        &mut self,
        buffer: &mut Buffer,
        trx: u32,
        change: Change,
        bucket: u32,
        disk: &mut D,
    ) -> Result<(), EngineRefusal>
        requires cause { MayChange self.old trx change }
        requires bucket { bucket ≡ page_number self.old change.table change.key }
        requires kept { Keeps self.old buffer.old }
        ensures way { Goes (change_way self.old trx change) buffer.old buffer.new result }
        ensures donor { Carries self.old self.new result
            (λ _. Changes self.old trx change self.new) }
        ensures kept { Keeps self.new buffer.new }
        ensures between { KeptBetween self.old buffer.old buffer.new }
        ensures reads { Reads (IsErrOf result (Because DiskFault))
            (D.state disk.old) (D.state disk.new) }
        ensures stands { StaysStanding buffer.old buffer.new
            (D.state disk.old).told (D.state disk.new).told }
    {
        self.laws();
        let mut held = Held::new();
        let target = self.find_target(buffer, trx, &change, bucket, &mut held, disk)?;
        held.hold(buffer, disk, 0, header_page(trx))?;
        let at = held.hold(buffer, disk, 0, record_page(trx, target.count as usize))?;
        let first = first_record(buffer.frame(at));
        let changed = self.write_change(buffer, trx, change, &target, first);
        held.release(buffer);
        changed
    }

    // Finds the place of a change, and holds its page: in a slot of the row's chain, or on a new
    // page behind the last one of the chain.
    fn find_target<D: PageDisk>(
        &self,
        buffer: &mut Buffer,
        trx: u32,
        change: &Change,
        bucket: u32,
        held: &mut Held,
        disk: &mut D,
    ) -> Result<ChangeTarget, EngineRefusal>
        requires cause { MayChange self.now trx change.now }
        requires bucket { bucket ≡ page_number self.now change.now.table change.now.key }
        requires kept { Keeps self.now buffer.old }
        requires none { held.old ≡ [] }
        ensures placed { IfOk result (λ target. IsPlaced self.now trx change.now buffer.old held.new
            buffer.new target.entry target.is_new target.count) }
        ensures refused { IfErr result (λ refusal. IsRefused
            (change_call self.now trx change.now buffer.old) buffer.new refusal) }
        ensures reads { Reads (IsErrOf result (Because DiskFault))
            (D.state disk.old) (D.state disk.new) }
        ensures stands { StaysStanding buffer.old buffer.new
            (D.state disk.old).told (D.state disk.new).told }
    {
        self.laws();
        let course = Course {
            table: change.table,
            first: bucket,
            key: change.key,
            for_room: true,
        };
        let spot = held.walk(buffer, disk, course)?;
        match spot.slot {
            Some(slot) => Ok(self.target_at(buffer, trx, change, spot, slot)),
            None => self.grow(buffer, trx, change, spot, held, disk),
        }
    }

    // The place of a change in a slot that a walk came to.
    fn target_at(
        &self,
        buffer: &Buffer,
        trx: u32,
        change: &Change,
        spot: Spot,
        slot: u16,
    ) -> ChangeTarget
        requires cause { MayChange self.now trx change.now }
        requires spot { IsSpot self.now change.now.table change.now.key buffer.now spot }
        requires slot { spot.slot ≡ Some slot }
        requires kept { IsTrue buffer.now.right → IsKept self.now (image_of buffer.now) }
        ensures target { IsTargetFor self.now trx change.now buffer.now result.entry result.is_new
            result.count }
        ensures row { row_page result.entry
            ≡ record { space = change.now.table; number = spot.page } }
        ensures way { told_way trx change.now result.count result.is_new result.entry
            ≡ change_at self.now trx change.now spot.page spot.slot (page_in spot.at buffer.now) }
    {
        self.laws();
        buffer.laws();
        let count = self.count_of(trx);
        let page = buffer.frame(spot.at);
        let before = before_on(page, slot);
        ChangeTarget {
            entry: UndoRecord::new(change.table, spot.page, slot, change.key, before),
            is_new: page.kind() == 0,
            count,
        }
    }

    // How many changes an open transaction has made.
    pub(crate) fn count_of(&self, trx: u32) -> u16
        requires { IsSome (finite.get self.now.active trx) }
        ensures { result ≡ length (changes_of self.now trx) }
    {
        self.laws();
        let Some(commit) = self.active.get(trx) else {
            unreachable!();
        };
        commit.changes.len() as u16
    }

    // Writes a change to its place, with all its pages held. The first record makes the page of the
    // undo record, and is left out where that page is in use.
    fn write_change(
        &mut self,
        buffer: &mut Buffer,
        trx: u32,
        change: Change,
        target: &ChangeTarget,
        first: usize,
    ) -> Result<(), EngineRefusal>
        requires cause { MayChange self.old trx change }
        requires ready { IsReady self.old trx change buffer.old target.now.entry target.now.is_new
            target.now.count first }
        requires kept { IsTrue buffer.old.right → IsKept self.old (image_of buffer.old) }
        ensures written { Writes (records_of_change (first == 0) target.now.is_new trx
            target.now.count target.now.entry (rows.image change.key change.value)) buffer.old
            buffer.new result }
        ensures donor { Carries self.old self.new result
            (λ _. Changes self.old trx change self.new) }
        ensures kept { IsTrue buffer.new.right → IsKept self.new (image_of buffer.new) }
        ensures stands { (told : Option DiskImage) → StaysStanding buffer.old buffer.new told told }
    {
        self.laws();
        let image = slot_image(change.key, change.value.as_ref());
        if target.is_new {
            let records = first_change_records(trx, target.count, &target.entry, &image);
            self.write_from(buffer, trx, change, target, &records, first)
        } else {
            let records = change_records(trx, target.count, &target.entry, &image);
            self.write_from(buffer, trx, change, target, &records, first)
        }
    }

    // Writes a change by the records that make the page of the undo record, too, from the first or
    // the second on.
    fn write_from(
        &mut self,
        buffer: &mut Buffer,
        trx: u32,
        change: Change,
        target: &ChangeTarget,
        records: &[Record],
        first: usize,
    ) -> Result<(), EngineRefusal>
        requires cause { MayChange self.old trx change }
        requires ready { IsReady self.old trx change buffer.old target.now.entry target.now.is_new
            target.now.count first }
        requires records { records.now ≡ records_of_change true target.now.is_new trx
            target.now.count target.now.entry (rows.image change.key change.value) }
        requires image { length (rows.image change.key change.value) ≡ 80 }
        requires kept { IsTrue buffer.old.right → IsKept self.old (image_of buffer.old) }
        ensures written { Writes (records_of_change (first == 0) target.now.is_new trx
            target.now.count target.now.entry (rows.image change.key change.value)) buffer.old
            buffer.new result }
        ensures donor { Carries self.old self.new result
            (λ _. Changes self.old trx change self.new) }
        ensures kept { IsTrue buffer.new.right → IsKept self.new (image_of buffer.new) }
        ensures stands { (told : Option DiskImage) → StaysStanding buffer.old buffer.new told told }
    {
        // an old value has at most 64 bytes, so the records fit one mini-transaction
        target.entry.value();
        let records = records_from(records, first);
        check_room(buffer, records)?;
        self.note_change(trx, change)?;
        write_held(buffer, records);
        Ok(())
    }

    // Adds a change to its transaction, and locks its row. After a refusal all is as before.
    fn note_change(&mut self, trx: u32, change: Change) -> Result<(), AllocError>
        requires cause { MayChange self.old trx change }
        ensures ok { OnOk result (Changes self.old trx change self.new) }
        ensures err { OnErr result (self.new ≡ self.old) }
    {
        let (table, key) = (change.table, change.key);
        self.active.push(trx, change)?;
        if self.locks.lock(trx, table, key).is_err() {
            let _ = self.active.pop(trx);
            return Err(AllocError);
        }
        Ok(())
    }
}
