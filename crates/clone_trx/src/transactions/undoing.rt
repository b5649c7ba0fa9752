ghost use Rattle.std.specs.Prelude.{Err, IfNone, IfSome, IsErrOf, IsSome, IsTrue, None, ◌-◌, ◌<◌, ◌≡◌, ◌≢◌, ◌≤◌};
ghost use Rattle.std.specs.declared.option.Option.{Option};
ghost use Rattle.clone_outside.specs.Disk.{DiskImage};
ghost use Rattle.clone_outside.specs.DiskCalls.{Reads};
ghost use Rattle.clone_undo.specs.Places.{capacity, header_page};
ghost use Rattle.clone_undo.specs.Slots.{entry_on};
ghost use Rattle.clone_undo.specs.Changes.{records_of_end, records_of_taking_back};
ghost use Rattle.clone_buffer.specs.Buffered.{image_of};
ghost use Rattle.clone_plain.specs.Causes.{no_trx};
ghost use Rattle.clone_plain.specs.Effects.{Undoes};
ghost use Rattle.clone_plain.specs.declared.refusal.Cause.TheVariants.{DiskFault};
ghost use Rattle.clone_plain.specs.declared.refusal.EngineRefusal.TheVariants.{Because, NoMemory};
ghost use Rattle.clone_trx.specs.Calls.{before_change, last_change, row_page, system_page, undo_way};
ghost use Rattle.clone_trx.specs.Ways.{Answers, Carries, StaysStanding, Writes};
ghost use Rattle.clone_trx.specs.Kept.{IsHeld, IsLast, IsLastRecord, Keeps};
ghost use Rattle.clone_trx.specs.Sound.{IsKept};
ghost use Rattle.std.specs.FinMap as finite;

use crate::Transactions;
use crate::held::Held;
use crate::hold::{check_room, write_held};
use clone_buffer::Buffer;
use clone_outside::PageDisk;
use clone_page::Page;
use clone_plain::{Cause, EngineRefusal, Undone};
use clone_undo::{
    Before, UndoRecord, end_record, header_page, last_record, record_page, take_back_records,
};

impl Transactions {
    /// Takes the last change of a transaction back and answers how many are left. The locks stay.
    /// Where it has no change, it ends without a commit. Refused where no open transaction has this
    /// number, where there is no frame for a page, and where the log has no room. It takes no
    /// memory.
    pub fn undo_one<D: PageDisk>(
        &mut self,
        buffer: &mut Buffer,
        trx: u32,
        disk: &mut D,
    ) -> Result<Undone, EngineRefusal>
        requires kept { Keeps self.old buffer.old }
        ensures answer { Answers (no_trx self.old trx) (undo_way self.old trx)
            self.old self.new buffer.old buffer.new result
            (λ undone. Undoes self.old trx undone self.new) }
        ensures memory { result ≢ Err NoMemory }
        ensures kept { Keeps self.new buffer.new }
        ensures reads { Reads (IsErrOf result (Because DiskFault))
            (D.state disk.old) (D.state disk.new) }
        ensures stands { StaysStanding buffer.old buffer.new
            (D.state disk.old).told (D.state disk.new).told }
    {
        if self.active.get(trx).is_none() {
            return Err(Cause::NoSuchTrx.into());
        }
        self.laws();
        let mut held = Held::new();
        held.hold(buffer, disk, 0, header_page(trx))?;
        let Some((count, table, key)) = self.last_of(trx) else {
            let ended = self.end(buffer, trx);
            held.release(buffer);
            return ended;
        };
        let at = held.hold(buffer, disk, 0, record_page(trx, count as usize - 1))?;
        let entry = self.entry_of(buffer.frame(at), count, table, key);
        held.hold(buffer, disk, entry.table(), entry.page())?;
        let undone = self.take_back(buffer, trx, count, &entry);
        held.release(buffer);
        undone
    }

    // How many changes an open transaction has made, and the row of the last, if it made any.
    fn last_of(&self, trx: u32) -> Option<(u16, u32, u64)>
        requires active { IsSome (finite.get self.now.active trx) }
        ensures some { IfSome result (λ last. IsLast self.now trx last.0 last.1 last.2) }
        ensures none { IfNone result (last_change self.now trx ≡ None) }
    {
        let Some(commit) = self.active.get(trx) else {
            unreachable!();
        };
        let last = commit.changes.as_slice().last()?;
        Some((commit.changes.len() as u16, last.table, last.key))
    }

    // Ends a transaction without changes, with the first page of its undo slot held.
    fn end(&mut self, buffer: &mut Buffer, trx: u32) -> Result<Undone, EngineRefusal>
        requires active { IsSome (finite.get self.old.active trx) }
        requires nothing { last_change self.old trx ≡ None }
        requires kept { IsTrue buffer.old.right → IsKept self.old (image_of buffer.old) }
        requires header { IsHeld (system_page (header_page trx)) buffer.old.pool.frames }
        ensures written { Writes (records_of_end trx) buffer.old buffer.new result }
        ensures donor { Carries self.old self.new result
            (λ undone. Undoes self.old trx undone self.new) }
        ensures memory { result ≢ Err NoMemory }
        ensures kept { IsTrue buffer.new.right → IsKept self.new (image_of buffer.new) }
        ensures stands { (told : Option DiskImage) → StaysStanding buffer.old buffer.new told told }
    {
        self.laws();
        let records = [end_record(trx)];
        check_room(buffer, &records)?;
        let _ = self.active.remove(trx);
        self.locks.release(trx);
        write_held(buffer, &records);
        Ok(Undone::Ended)
    }

    // What the undo record of the last of so many changes tells of the row. One that isn't of this
    // row counts as if it told of an absent row in the first slot of the row's bucket: no page that
    // was read as it was written has one.
    fn entry_of(&self, page: &Page, count: u16, table: u32, key: u64) -> UndoRecord
        requires table { IsSome (finite.get self.now.tables table) }
        requires count { (0 < count) × (count ≤ capacity) }
        ensures { result ≡ before_change self.now table key (entry_on (count - 1) page.now) }
    {
        self.laws();
        let Some(bucket) = self.bucket_of(table, key) else {
            unreachable!();
        };
        match last_record(page, count) {
            Some(entry) if entry.table() == table && entry.key() == key => entry,
            _ => UndoRecord::new(table, bucket, 0, key, Before::Absent),
        }
    }

    // Takes the last of so many changes back, with all its pages held.
    fn take_back(
        &mut self,
        buffer: &mut Buffer,
        trx: u32,
        count: u16,
        entry: &UndoRecord,
    ) -> Result<Undone, EngineRefusal>
        requires last { IsLast self.old trx count entry.now.table entry.now.key }
        requires told { IsTrue buffer.old.right → IsLastRecord (image_of buffer.old) trx entry.now }
        requires kept { IsTrue buffer.old.right → IsKept self.old (image_of buffer.old) }
        requires header { IsHeld (system_page (header_page trx)) buffer.old.pool.frames }
        requires row { IsHeld (row_page entry.now) buffer.old.pool.frames }
        ensures written { Writes (records_of_taking_back trx count entry.now) buffer.old buffer.new
            result }
        ensures donor { Carries self.old self.new result
            (λ undone. Undoes self.old trx undone self.new) }
        ensures memory { result ≢ Err NoMemory }
        ensures kept { IsTrue buffer.new.right → IsKept self.new (image_of buffer.new) }
        ensures stands { (told : Option DiskImage) → StaysStanding buffer.old buffer.new told told }
    {
        self.laws();
        let records = take_back_records(trx, count, entry);
        check_room(buffer, &records)?;
        let _ = self.active.pop(trx);
        write_held(buffer, &records);
        Ok(Undone::Left(count - 1))
    }
}
