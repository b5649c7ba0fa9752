ghost use Rattle.std.specs.Prelude.{◌≡◌, true, IfOk, OnErr, OnOk, IsTrue};
ghost use Rattle.clone_outside.specs.Disk.{Steps};
ghost use Rattle.clone_outside.specs.DiskCalls.{Works};
ghost use Rattle.clone_outside.specs.declared.mark.CloneEnd.{CloneEnd};
ghost use Rattle.clone_outside.specs.declared.mark.Mark.TheVariants.{Complete};
ghost use Rattle.clone_lay.specs.Copying.{IsCompleting};
ghost use Rattle.clone_lay.specs.Marked.{marked};
ghost use Rattle.clone_tasks.specs.Tables.{is_done};
ghost use Rattle.clone_recipient.specs.Showing.{IsEndOf};

use crate::Reception;
use clone_lay::complete;
use clone_outside::{CloneEnd, PageDisk, Refusal};

impl Reception {
    /// Ends the copy: all that was laid is brought to where it stays, then the numbers that were
    /// told of the copy of redo are written in the mark, and then the complete mark is, each brought
    /// there too. The answer is the LSN and the number of commits. EXIT is sent after it.
    pub fn complete<R: PageDisk>(&mut self, disk: &mut R) -> Result<(u64, u64), Refusal>
        requires { IsTrue (is_done self.old.table.phase) }
        ensures numbers { IfOk result (λ n. n ≡ (self.old.lsn, self.old.position)) }
        ensures mark { OnOk result ((end : CloneEnd) × IsEndOf self.old end
            × Steps (R.state disk.old).told (R.state disk.new).told (marked (Complete end))) }
        ensures partial { OnErr result ((end : CloneEnd) × IsEndOf self.old end
            × IsCompleting end (R.state disk.old).told (R.state disk.new).told) }
        ensures synced { OnOk result (self.new ≡ record self.old { synced = true }) }
        ensures kept { OnErr result (self.new ≡ self.old) }
        ensures works { Works (R.state disk.old) (R.state disk.new) result }
    {
        let end = CloneEnd {
            session: self.table.session(),
            checkpoint: self.end.checkpoint,
            lsn: self.end.lsn,
            position: self.end.position,
        };
        complete(disk, &end)?;
        self.synced = true;
        Ok((end.lsn, end.position))
    }
}
