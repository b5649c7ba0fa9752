ghost use Rattle.std.specs.Prelude.{IsErrOf, IsTrue, Some, ◌≡◌};
ghost use Rattle.std.specs.declared.option.Option.{Option};
ghost use Rattle.clone_outside.specs.Disk.{DiskImage};
ghost use Rattle.clone_outside.specs.DiskCalls.{Reads};
ghost use Rattle.clone_undo.specs.Places.{header_page};
ghost use Rattle.clone_undo.specs.Changes.{records_of_begin};
ghost use Rattle.clone_buffer.specs.Buffered.{image_of};
ghost use Rattle.clone_plain.specs.Causes.{begin_cause, least_unused};
ghost use Rattle.clone_plain.specs.Effects.{Begins};
ghost use Rattle.clone_plain.specs.declared.refusal.Cause.TheVariants.{DiskFault};
ghost use Rattle.clone_plain.specs.declared.refusal.EngineRefusal.TheVariants.{Because};
ghost use Rattle.clone_trx.specs.Calls.{begin_way, is_new, system_page};
ghost use Rattle.clone_trx.specs.Ways.{Answers, Carries, StaysStanding, Writes, page_in};
ghost use Rattle.clone_trx.specs.Kept.{Has, Keeps};
ghost use Rattle.clone_trx.specs.Sound.{IsKept};

use crate::Transactions;
use crate::hold::{check_room, first_record, hold, records_from, release, write_held};
use clone_buffer::Buffer;
use clone_outside::PageDisk;
use clone_plain::{Cause, EngineRefusal, TRANSACTION_LIMIT};
use clone_undo::{begin_records, header_page};
use std::alloc::Global;

impl Transactions {
    /// Begins a transaction of a writer, which is its transaction of this index, and answers the
    /// least number below 64 of which none is open. Refused where each is, where there is no frame
    /// for the page of its undo slot, and where the log has no room. The room of its commit in the
    /// binlog is made here.
    pub fn begin<D: PageDisk>(
        &mut self,
        alloc: Global,
        buffer: &mut Buffer,
        writer: u32,
        index: u64,
        disk: &mut D,
    ) -> Result<u32, EngineRefusal>
        requires kept { Keeps self.old buffer.old }
        ensures answer { Answers (begin_cause self.old) (begin_way self.old writer index)
            self.old self.new buffer.old buffer.new result
            (λ trx. Begins self.old writer index trx self.new) }
        ensures kept { Keeps self.new buffer.new }
        ensures reads { Reads (IsErrOf result (Because DiskFault))
            (D.state disk.old) (D.state disk.new) }
        ensures stands { StaysStanding buffer.old buffer.new
            (D.state disk.old).told (D.state disk.new).told }
    {
        let Some(trx) = self.active.least_free() else {
            return Err(Cause::TooManyTransactions.into());
        };
        let at = hold(buffer, disk, 0, header_page(trx))?;
        let begun = self.begin_held(alloc, buffer, trx, writer, index, at);
        release(buffer, at);
        begun
    }

    // Begins a transaction of the least free number, with the first page of its undo slot held.
    fn begin_held(
        &mut self,
        alloc: Global,
        buffer: &mut Buffer,
        trx: u32,
        writer: u32,
        index: u64,
        at: u32,
    ) -> Result<u32, EngineRefusal>
        requires number { least_unused self.old.active ≡ Some trx }
        requires kept { IsTrue buffer.old.right → IsKept self.old (image_of buffer.old) }
        requires held { Has (system_page (header_page trx)) at buffer.old.pool.frames }
        ensures written { Writes
            (records_of_begin (is_new (page_in at buffer.old)) trx writer index) buffer.old
            buffer.new result }
        ensures donor { Carries self.old self.new result
            (λ answer. Begins self.old writer index answer self.new) }
        ensures kept { IsTrue buffer.new.right → IsKept self.new (image_of buffer.new) }
        ensures stands { (told : Option DiskImage) → StaysStanding buffer.old buffer.new told told }
    {
        buffer.laws();
        let records = begin_records(trx, writer, index);
        let records = records_from(&records, first_record(buffer.frame(at)));
        check_room(buffer, records)?;
        self.binlog.reserve(TRANSACTION_LIMIT as usize)?;
        self.active.begin(alloc, trx, writer, index)?;
        write_held(buffer, records);
        Ok(trx)
    }
}
