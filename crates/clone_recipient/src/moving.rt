//! A STAGE moves the recipient to the next stage: what is told of it is kept, and none of its
//! blocks was taken.
ghost use Rattle.std.specs.Prelude.{◌≡◌, ◌≤◌, ◌<◌, length, true, IfOk, OnErr, OnOk, IsTrue};
ghost use Rattle.clone_base.specs.declared.limits.TheConstants.{LSN_LIMIT, SPACE_LIMIT};
ghost use Rattle.clone_outside.specs.Disk.{ForTold, Steps};
ghost use Rattle.clone_outside.specs.DiskCalls.{Works};
ghost use Rattle.clone_lay.specs.Sized.{AreSizes};
ghost use Rattle.clone_chunk.specs.declared.copy_stage.CopyStage.TheVariants.{FileCopy, PageCopy};
ghost use Rattle.clone_chunk.specs.declared.copy_stage.CopyStage.TheVariants.{RedoCopy};
ghost use Rattle.clone_snapshot.specs.StageLists.{Files, Redo};
ghost use Rattle.clone_accepted.specs.Answers.{ToldPages};
ghost use Rattle.clone_accepted.specs.Disk.{with_told};
ghost use Rattle.clone_marks.specs.Counts.{block_counts, counted_pages, pairs_of, unmarked};
ghost use Rattle.clone_tasks.specs.Moves.{begins};
ghost use Rattle.clone_tasks.specs.declared.standing.Phase.TheVariants.{Copying};
ghost use Rattle.clone_recipient.specs.Expecting.{are_spaces, fits};
ghost use Rattle.clone_recipient.specs.Taking.{KeepsMark, moved_by, told_by};
ghost use Rattle.clone_recipient.specs.declared.limits.TheConstants.{MOST_COPIED};

use crate::Reception;
use crate::laying::make_rooms;
use clone_chunk::{CopyStage, SpaceSize, StagePlan};
use clone_marks::Marks;
use clone_outside::{CloneEnd, PageDisk, Refusal};
use std::alloc::{AllocError, Global};

impl Reception {
    /// The recipient comes to a stage. After an error nothing has changed but the disk.
    pub(crate) fn come_to<R: PageDisk>(
        &mut self,
        alloc: Global,
        disk: &mut R,
        plan: &StagePlan,
    ) -> Result<(), Refusal>
        requires sizes { ForTold (R.state disk.old).told (AreSizes self.old.sizes) }
        requires fits { fits plan.now ≡ true }
        ensures moves { OnOk result
            (self.new ≡ record (moved_by plan.now self.old) { sizes = self.new.sizes }) }
        ensures steps { OnOk result (Steps (R.state disk.old).told (R.state disk.new).told
            (with_told (told_by plan.now))) }
        ensures sizes { OnOk result
            (ForTold (R.state disk.new).told (AreSizes self.new.sizes)) }
        ensures kept { OnErr result (self.new ≡ record self.old { sizes = self.new.sizes }) }
        ensures mark { OnErr result
            (KeepsMark (R.state disk.old).told (R.state disk.new).told) }
        ensures works { Works (R.state disk.old) (R.state disk.new) result }
    {
        match plan {
            StagePlan::FileCopy { .. } => {
                self.begin_files(alloc, plan.spaces())?;
                Ok(())
            }
            StagePlan::PageCopy { position, .. } => {
                self.begin_pages(alloc, disk, *position, plan.spaces())
            }
            StagePlan::RedoCopy {
                checkpoint,
                lsn,
                position,
                ..
            } => {
                self.begin_redo(alloc, *checkpoint, *lsn, *position)?;
                Ok(())
            }
            StagePlan::Done { .. } => {
                self.table.finish_copy();
                Ok(())
            }
        }
    }

    // The files of these spaces are copied from now on.
    fn begin_files(&mut self, alloc: Global, spaces: &[SpaceSize]) -> Result<(), AllocError>
        requires few { length spaces.now ≤ SPACE_LIMIT }
        requires fit { are_spaces 0 spaces.now ≡ true }
        ensures moves { OnOk result (self.new ≡ record self.old {
          table = begins (Copying FileCopy)
              (unmarked (block_counts (Files (pairs_of spaces.now)))) self.old.table;
          files = pairs_of spaces.now;
        }) }
        ensures kept { OnErr result (self.new ≡ self.old) }
    {
        let marks = Marks::of_files(alloc, spaces)?;
        let files = pairs_of(alloc, spaces)?;
        self.files = files;
        self.table.begin_stage(CopyStage::FileCopy, marks);
        Ok(())
    }

    // So many pages are copied from now on, and room is made for spaces that are new.
    fn begin_pages<R: PageDisk>(
        &mut self,
        alloc: Global,
        disk: &mut R,
        pages: u64,
        spaces: &[SpaceSize],
    ) -> Result<(), Refusal>
        requires sizes { ForTold (R.state disk.old).told (AreSizes self.old.sizes) }
        requires few { pages ≤ MOST_COPIED }
        ensures moves { OnOk result (self.new ≡ record self.old {
          table = begins (Copying PageCopy)
              (unmarked (block_counts (counted_pages pages))) self.old.table;
          sizes = self.new.sizes;
          pages = pages;
        }) }
        ensures steps { OnOk result (Steps (R.state disk.old).told (R.state disk.new).told
            (with_told (ToldPages pages (pairs_of spaces.now)))) }
        ensures sizes { OnOk result
            (ForTold (R.state disk.new).told (AreSizes self.new.sizes)) }
        ensures kept { OnErr result (self.new ≡ record self.old { sizes = self.new.sizes }) }
        ensures mark { OnErr result
            (KeepsMark (R.state disk.old).told (R.state disk.new).told) }
        ensures works { Works (R.state disk.old) (R.state disk.new) result }
    {
        let marks = Marks::of_pages(alloc, pages)?;
        make_rooms(disk, &mut self.sizes, spaces)?;
        self.pages = pages as u32;
        self.table.begin_stage(CopyStage::PageCopy, marks);
        Ok(())
    }

    // The redo from the checkpoint up to the LSN is copied from now on.
    fn begin_redo(
        &mut self,
        alloc: Global,
        checkpoint: u64,
        lsn: u64,
        position: u64,
    ) -> Result<(), AllocError>
        requires ordered { checkpoint ≤ lsn }
        requires in_log { lsn < LSN_LIMIT }
        ensures moves { OnOk result (self.new ≡ record self.old {
          table = begins (Copying RedoCopy)
              (unmarked (block_counts (Redo checkpoint lsn))) self.old.table;
          checkpoint = checkpoint;
          lsn = lsn;
          position = position;
        }) }
        ensures kept { OnErr result (self.new ≡ self.old) }
    {
        let marks = Marks::of_redo(alloc, checkpoint, lsn)?;
        self.end = CloneEnd {
            session: self.table.session(),
            checkpoint,
            lsn,
            position,
        };
        self.table.begin_stage(CopyStage::RedoCopy, marks);
        Ok(())
    }
}

// Spaces as pairs, of each its number and how many pages it has.
fn pairs_of(alloc: Global, spaces: &[SpaceSize]) -> Result<Vec<(u32, u32)>, AllocError>
    ensures { IfOk result (λ pairs. pairs.items ≡ pairs_of spaces.now) }
{
    spaces
        .iter()
        .map(|space| (space.space, space.pages))
        .collect(alloc)
}
