ghost use Rattle.std.specs.Prelude.{◌≡◌, ◌==◌, ◌≤◌, IfErr, IfOk, IsErr, MatchResult, OnOk, None};
ghost use Rattle.std.specs.List.{AllByRecursion};
ghost use Rattle.clone_base.specs.declared.limits.TheConstants.{BLOCK_BYTES};
ghost use Rattle.clone_outside.specs.DiskCalls.{DiskState, Reads};
ghost use Rattle.clone_chunk.specs.Stages.{stage_number};
ghost use Rattle.clone_chunk.specs.declared.stage.Stage.TheVariants.{RedoCopy};
ghost use Rattle.clone_calls.specs.Answering.{is_redo};
ghost use Rattle.clone_session.specs.CloneCalls.{IsInArchive};
ghost use Rattle.clone_plain.specs.declared.refusal.Cause.TheVariants.{DiskFault};
ghost use Rattle.clone_calls.specs.declared.answer.DonorAnswer.TheVariants as answer;
ghost use Rattle.clone_calls.specs.declared.call.DonorCall.TheVariants as call;
ghost use Rattle.clone_engine.specs.Acts.{CloneActs};
ghost use Rattle.clone_engine.specs.Copying.{FailsReading, IsRedo, ReadsIn, places_of};
ghost use Rattle.clone_engine.specs.Donor.{IsDonor};
ghost use Rattle.clone_engine.specs.Engine.{IsEngine};
ghost use Rattle.clone_engine.specs.Over.{over};
ghost use Rattle.clone_engine.specs.Reading.{OnlyVisits};

use crate::Engine;
use clone_calls::{Block, BlockRefusal};
use clone_chunk::RedoBytes;
use clone_outside::PageDisk;
use clone_page::{Page, PageAt, Pages};
use clone_plain::EngineRefusal;
use clone_session::{BlockWork, Caller};
use clone_snapshot::{PageBlock, RedoBlock};
use std::alloc::{AllocError, Global};

/// The number of the stage in which files are copied.
const FILE_COPY: u8 = 1;

// The blocks of a clone.
impl Engine {
    /// A block of a chunk that the task has claimed: pages as the disk has them while files are
    /// copied, pages as they are after that, or redo that is archived. And whether the block was its
    /// chunk's last; then the chunk is finished. After an error nothing has changed but the disk's
    /// count of faults.
    pub fn read_block<D: PageDisk>(
        &mut self,
        alloc: Global,
        caller: Caller,
        stage: u8,
        chunk: u32,
        number: u8,
        disk: &mut D,
    ) -> Result<(Block, bool), BlockRefusal>
        requires donor { IsDonor (over self.old (D.state disk.old)) }
        ensures kind { IfOk result (λ given. is_redo given.0 ≡ (stage == stage_number RedoCopy)) }
        ensures acts { CloneActs (call.ReadBlock caller stage chunk number)
            (answer.ReadBlock result)
            (over self.old (D.state disk.old)) (over self.new (D.state disk.new)) }
    {
        let work = self.cloning.block(caller, stage, chunk, number)?;
        self.cloning.laws();
        let block = match work {
            BlockWork::Pages(pages) => {
                Block::Pages(Pages::new(self.pages(alloc, stage, pages, disk)?))
            }
            BlockWork::Redo(redo) => self.redo(alloc, redo)?,
        };
        let last = self.cloning.answered(caller, chunk, number);
        Ok((block, last))
    }

    // The pages of a block, as the stage copies them.
    fn pages<D: PageDisk>(
        &self,
        alloc: Global,
        stage: u8,
        block: PageBlock,
        disk: &mut D,
    ) -> Result<Vec<PageAt>, BlockRefusal>
        requires engine { IsEngine (over self.now (D.state disk.old)).engine }
        ensures places { IfOk result (λ pages. places_of pages.items ≡ block) }
        ensures read { IfOk result (λ pages.
            AllByRecursion (ReadsIn stage (over self.now (D.state disk.old)).engine) pages.items) }
        ensures refused { IfErr result (FailsReading (over self.now (D.state disk.old)).engine
            (over self.now (D.state disk.new)).engine) }
        ensures visits { OnlyVisits (over self.now (D.state disk.old)).engine
            (over self.now (D.state disk.new)).engine }
    {
        let mut pages = Vec::with_capacity(alloc, block.len())?;
        for (space, number) in block.as_slice() {
            let page = self.page(stage, *space, *number, disk)?;
            if let Err(refused) = pages.push(page) {
                return Err(AllocError::from(refused).into());
            }
        }
        Ok(pages)
    }

    // A page as the disk has it while files are copied, and as it is after that.
    fn page<D: PageDisk>(
        &self,
        stage: u8,
        space: u32,
        number: u32,
        disk: &mut D,
    ) -> Result<PageAt, EngineRefusal>
        requires engine { IsEngine (over self.now (D.state disk.old)).engine }
        ensures place { IfOk result (λ page. (page.space ≡ space) × (page.number ≡ number)) }
        ensures read { IfOk result (ReadsIn stage (over self.now (D.state disk.old)).engine) }
        ensures refused { IfErr result (λ refusal. refusal ≡ EngineRefusal.Because DiskFault) }
        ensures reads { Reads (IsErr result) (D.state disk.old) (D.state disk.new) }
    {
        let mut page = Page::zero();
        if stage == FILE_COPY {
            self.file_page(space, number, page.bytes_mut(), disk)?;
        } else {
            self.latest_page(space, number, page.bytes_mut(), disk)?;
        }
        Ok(PageAt {
            space,
            number,
            page,
        })
    }

    // Archived bytes of the log.
    fn redo(&self, alloc: Global, redo: RedoBlock) -> Result<Block, AllocError>
        requires archived { IsInArchive self.now.cloning.archive redo }
        requires some { 1 ≤ redo.length }
        requires few { redo.length ≤ BLOCK_BYTES }
        ensures { IfOk result (λ block. (disk : DiskState) → IsRedo (over self.now disk) redo block) }
    {
        let mut bytes = Vec::from_elem(alloc, 0, redo.length as usize)?;
        self.cloning.read_redo(redo, &mut bytes);
        Ok(Block::Redo {
            from: redo.from,
            bytes: RedoBytes::of(bytes),
        })
    }
}
