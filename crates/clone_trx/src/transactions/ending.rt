ghost use Rattle.std.specs.Prelude.{Err, IsErrOf, IsTrue, None, length, ◌+◌, ◌≡◌, ◌≢◌};
ghost use Rattle.std.specs.declared.option.Option.{Option};
ghost use Rattle.clone_outside.specs.Disk.{DiskImage};
ghost use Rattle.clone_outside.specs.DiskCalls.{Reads};
ghost use Rattle.clone_undo.specs.Places.{header_page};
ghost use Rattle.clone_contents.specs.Records.{commit_records};
ghost use Rattle.clone_buffer.specs.Buffered.{image_of};
ghost use Rattle.clone_plain.specs.Causes.{no_trx};
ghost use Rattle.clone_plain.specs.Effects.{Commits};
ghost use Rattle.clone_plain.specs.declared.refusal.Cause.TheVariants.{DiskFault};
ghost use Rattle.clone_plain.specs.declared.refusal.EngineRefusal.TheVariants.{Because, NoMemory};
ghost use Rattle.clone_trx.specs.Calls.{commit_way, system_page};
ghost use Rattle.clone_trx.specs.Ways.{Answers, Carries, StaysStanding, Writes};
ghost use Rattle.clone_trx.specs.Kept.{IsHeld, Keeps};
ghost use Rattle.clone_trx.specs.Sound.{IsKept};

use crate::Transactions;
use crate::held::Held;
use crate::hold::{check_room, write_held};
use crate::records::position;
use clone_buffer::Buffer;
use clone_outside::PageDisk;
use clone_plain::{Cause, EngineRefusal};
use clone_undo::{end_record, header_page};

impl Transactions {
    /// Commits all changes of a transaction, which ends, and answers the new number of commits.
    /// Refused where no open transaction has this number, where there is no frame for a page, and
    /// where the log has no room. It takes no memory: the binlog has the room, which `begin` made.
    pub fn commit<D: PageDisk>(
        &mut self,
        buffer: &mut Buffer,
        trx: u32,
        disk: &mut D,
    ) -> Result<u64, EngineRefusal>
        requires kept { Keeps self.old buffer.old }
        ensures answer { Answers (no_trx self.old trx) (commit_way self.old trx)
            self.old self.new buffer.old buffer.new result
            (λ position. Commits self.old trx position self.new) }
        ensures memory { result ≢ Err NoMemory }
        ensures kept { Keeps self.new buffer.new }
        ensures reads { Reads (IsErrOf result (Because DiskFault))
            (D.state disk.old) (D.state disk.new) }
        ensures stands { StaysStanding buffer.old buffer.new
            (D.state disk.old).told (D.state disk.new).told }
    {
        if self.active.get(trx).is_none() {
            return Err(Cause::NoSuchTrx.into());
        }
        let mut held = Held::new();
        held.hold(buffer, disk, 0, header_page(trx))?;
        held.hold(buffer, disk, 0, 0)?;
        let committed = self.write_commit(buffer, trx);
        held.release(buffer);
        committed
    }

    // Commits, with the pages held that it writes to.
    fn write_commit(&mut self, buffer: &mut Buffer, trx: u32) -> Result<u64, EngineRefusal>
        requires cause { no_trx self.old trx ≡ None }
        requires kept { IsTrue buffer.old.right → IsKept self.old (image_of buffer.old) }
        requires header { IsHeld (system_page (header_page trx)) buffer.old.pool.frames }
        requires system { IsHeld (system_page 0) buffer.old.pool.frames }
        ensures written { Writes (commit_records trx (length self.old.binlog + 1)) buffer.old
            buffer.new result }
        ensures donor { Carries self.old self.new result
            (λ position. Commits self.old trx position self.new) }
        ensures memory { result ≢ Err NoMemory }
        ensures kept { IsTrue buffer.new.right → IsKept self.new (image_of buffer.new) }
        ensures stands { (told : Option DiskImage) → StaysStanding buffer.old buffer.new told told }
    {
        let commits = self.binlog.as_slice().len() as u64 + 1;
        let records = [end_record(trx), position(commits)];
        check_room(buffer, &records)?;
        let Some(commit) = self.active.remove(trx) else {
            unreachable!();
        };
        self.binlog.push_within(commit);
        self.locks.release(trx);
        write_held(buffer, &records);
        Ok(commits)
    }
}
