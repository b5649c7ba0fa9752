//! An answer is taken: it is laid on the disk first, and then it is noted that it was.
ghost use Rattle.std.specs.Prelude.{◌≡◌, ◌≤◌, ◌<◌, ◌+◌, ◌↔◌, true, false, length, Err};
ghost use Rattle.std.specs.Prelude.{IfOk, OnErr, OnOk, IsTrue};
ghost use Rattle.std.specs.List.{AllByRecursion};
ghost use Rattle.clone_base.specs.declared.limits.TheConstants.{LSN_LIMIT};
ghost use Rattle.clone_model.specs.declared.line.TheConstants.{MOST_PAGES};
ghost use Rattle.clone_outside.specs.Disk.{ForTold, Steps};
ghost use Rattle.clone_outside.specs.DiskCalls.{Alters, Works};
ghost use Rattle.clone_lay.specs.Laid.{laid_pages};
ghost use Rattle.clone_lay.specs.Redo.{laid_redo};
ghost use Rattle.clone_lay.specs.Sized.{AreSizes};
ghost use Rattle.clone_chunk.specs.declared.plan.StagePlan.{StagePlan};
ghost use Rattle.clone_accepted.specs.Disk.{distance_of};
ghost use Rattle.clone_marks.specs.Blocks.{is_left};
ghost use Rattle.clone_wire.specs.declared.frame.Frame.{Frame};
ghost use Rattle.clone_tasks.specs.Awaiting.{moves};
ghost use Rattle.clone_recipient.specs.Expecting.{fits, fits_redo, is_expected};
ghost use Rattle.clone_recipient.specs.Taking.{HasMarked, KeepsMark, Takes, TakesStage, laid_at, took_of};
ghost use Rattle.clone_recipient.specs.declared.refusal.TakeRefusal.TheVariants as refused;

use crate::laying::lay_pages;
use crate::{Reception, TakeRefusal, Took};
use clone_chunk::StagePlan;
use clone_lay::lay_redo;
use clone_outside::{PageDisk, Refusal};
use clone_page::PageAt;
use clone_tasks::CloneEnd;
use clone_wire::Frame;
use std::alloc::Global;

impl Reception {
    /// Takes a frame that has come for a task. `Unexpected` comes exactly where the task doesn't
    /// await it, with that very frame, and nothing has changed. After another error nothing has
    /// changed but the disk, whose mark is as it was, and the copy is to be given up.
    pub fn take<R: PageDisk>(
        &mut self,
        alloc: Global,
        disk: &mut R,
        task: u8,
        frame: Frame,
    ) -> Result<Took, TakeRefusal>
        requires sizes { ForTold (R.state disk.old).told (AreSizes self.old.sizes) }
        ensures unexpected { (result ≡ Err (refused.Unexpected frame))
            ↔ (is_expected self.old task frame ≡ false) }
        ensures frame { (other : Frame) → result ≡ Err (refused.Unexpected other)
            → other ≡ frame }
        ensures unchanged { is_expected self.old task frame ≡ false
            → (self.new ≡ self.old) × (R.state disk.new ≡ R.state disk.old) }
        ensures took { IfOk result (λ took. took ≡ took_of frame) }
        ensures takes { OnOk result (Takes frame task self.old self.new
            (R.state disk.old).told (R.state disk.new).told) }
        ensures sizes { OnOk result
            (ForTold (R.state disk.new).told (AreSizes self.new.sizes)) }
        ensures kept { OnErr result (self.new ≡ record self.old { sizes = self.new.sizes }) }
        ensures mark { OnErr result
            (KeepsMark (R.state disk.old).told (R.state disk.new).told) }
        ensures works { Alters (result ≡ Err refused.DiskFault)
            (R.state disk.old) (R.state disk.new) }
    {
        if !self.expects(task, &frame) {
            return Err(TakeRefusal::Unexpected { frame });
        }
        let took = Took::of(&frame);
        self.accept(alloc, disk, task, frame)?;
        Ok(took)
    }

    // Takes a frame that a task awaits.
    fn accept<R: PageDisk>(
        &mut self,
        alloc: Global,
        disk: &mut R,
        task: u8,
        frame: Frame,
    ) -> Result<(), Refusal>
        requires sizes { ForTold (R.state disk.old).told (AreSizes self.old.sizes) }
        requires expected { is_expected self.old task frame ≡ true }
        ensures takes { OnOk result (Takes frame task self.old self.new
            (R.state disk.old).told (R.state disk.new).told) }
        ensures sizes { OnOk result
            (ForTold (R.state disk.new).told (AreSizes self.new.sizes)) }
        ensures kept { OnErr result (self.new ≡ record self.old { sizes = self.new.sizes }) }
        ensures mark { OnErr result
            (KeepsMark (R.state disk.old).told (R.state disk.new).told) }
        ensures works { Works (R.state disk.old) (R.state disk.new) result }
    {
        match frame {
            Frame::Stage { plan, .. } => self.take_stage(alloc, disk, task, &plan),
            Frame::Pages {
                chunk,
                block,
                pages,
                ..
            } => self.take_pages(disk, chunk, block, pages.as_slice()),
            Frame::Redo {
                chunk,
                block,
                from,
                bytes,
                ..
            } => self.take_redo(disk, chunk, block, from, bytes.as_slice()),
            Frame::End { .. } => {
                self.table.take_end(task);
                Ok(())
            }
            Frame::Refused { cause } => {
                self.table.end(CloneEnd::Refused { cause });
                Ok(())
            }
            _ => unreachable!(),
        }
    }

    // A STAGE moves the recipient, or leaves it where it is.
    fn take_stage<R: PageDisk>(
        &mut self,
        alloc: Global,
        disk: &mut R,
        task: u8,
        plan: &StagePlan,
    ) -> Result<(), Refusal>
        requires sizes { ForTold (R.state disk.old).told (AreSizes self.old.sizes) }
        requires fits { fits plan.now ≡ true }
        ensures takes { OnOk result (TakesStage (moves self.old.table task) plan.now task
            self.old self.new (R.state disk.old).told (R.state disk.new).told) }
        ensures sizes { OnOk result
            (ForTold (R.state disk.new).told (AreSizes self.new.sizes)) }
        ensures kept { OnErr result (self.new ≡ record self.old { sizes = self.new.sizes }) }
        ensures mark { OnErr result
            (KeepsMark (R.state disk.old).told (R.state disk.new).told) }
        ensures works { Works (R.state disk.old) (R.state disk.new) result }
    {
        if self.table.moves(task) {
            return self.come_to(alloc, disk, plan);
        }
        self.table.join(task);
        Ok(())
    }

    // Pages are laid, and their block is marked.
    fn take_pages<R: PageDisk>(
        &mut self,
        disk: &mut R,
        chunk: u32,
        block: u8,
        pages: &[PageAt],
    ) -> Result<(), Refusal>
        requires sizes { ForTold (R.state disk.old).told (AreSizes self.old.sizes) }
        requires left { IsTrue (is_left self.old.table.marks chunk block) }
        requires low { AllByRecursion (λ p. p.number < MOST_PAGES) pages.now }
        ensures marked { OnOk result (HasMarked chunk block self.old self.new) }
        ensures steps { OnOk result (Steps (R.state disk.old).told (R.state disk.new).told
            (laid_pages (laid_at pages.now))) }
        ensures sizes { OnOk result
            (ForTold (R.state disk.new).told (AreSizes self.new.sizes)) }
        ensures kept { OnErr result (self.new ≡ record self.old { sizes = self.new.sizes }) }
        ensures mark { OnErr result
            (KeepsMark (R.state disk.old).told (R.state disk.new).told) }
        ensures works { Works (R.state disk.old) (R.state disk.new) result }
    {
        lay_pages(disk, &mut self.sizes, pages)?;
        self.table.take_block(chunk, block);
        Ok(())
    }

    // Redo is laid, and its block is marked.
    fn take_redo<R: PageDisk>(
        &mut self,
        disk: &mut R,
        chunk: u32,
        block: u8,
        from: u64,
        bytes: &[u8],
    ) -> Result<(), Refusal>
        requires sizes { ForTold (R.state disk.old).told (AreSizes self.old.sizes) }
        requires left { IsTrue (is_left self.old.table.marks chunk block) }
        requires some { 1 ≤ length bytes.now }
        requires fits { fits_redo self.old chunk block from bytes.now ≡ true }
        ensures marked { OnOk result (HasMarked chunk block self.old self.new) }
        ensures steps { OnOk result (Steps (R.state disk.old).told (R.state disk.new).told
            (laid_redo (distance_of chunk block) bytes.now)) }
        ensures sizes { OnOk result
            (ForTold (R.state disk.new).told (AreSizes self.new.sizes)) }
        ensures kept { OnErr result (self.new ≡ record self.old { sizes = self.new.sizes }) }
        ensures mark { OnErr result
            (KeepsMark (R.state disk.old).told (R.state disk.new).told) }
        ensures works { Works (R.state disk.old) (R.state disk.new) result }
    {
        lay_redo(disk, &mut self.sizes, self.end.checkpoint, from, bytes)?;
        self.table.take_block(chunk, block);
        Ok(())
    }
}
