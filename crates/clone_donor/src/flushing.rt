ghost use Rattle.std.specs.Prelude.{◌≡◌, Ok};
ghost use Rattle.clone_archive.specs.Archived.{kept_from};
ghost use Rattle.clone_plain.specs.declared.call.EngineCall.TheVariants as call;
ghost use Rattle.clone_plain.specs.declared.call.EngineAnswer.TheVariants as answers;
ghost use Rattle.clone_engine.specs.Steps.{Checks, Steps, answer_of};
ghost use Rattle.clone_engine.specs.Acts.{EngineActs};

use crate::Donor;
use clone_outside::PageDisk;
use clone_plain::EngineRefusal;

// The flushes and the checkpoint.
impl<D: PageDisk> Donor<D> {
    /// The flush of a page begins: its image is what will be written. While files are copied the
    /// page is noted, also where the disk fails to lengthen its file.
    pub fn flush_begin(&mut self, space: u32, page: u32) -> Result<(), EngineRefusal>
        ensures acts { EngineActs (call.FlushBegin space page)
            (answer_of (λ _. answers.FlushBegin) result) self.old self.new }
    {
        self.engine.flush_begin(space, page, &mut self.disk)
    }

    /// Writes the first half of a page whose flush has begun.
    pub fn flush_half(&mut self, space: u32, page: u32) -> Result<(), EngineRefusal>
        ensures acts { EngineActs (call.FlushHalf space page)
            (answer_of (λ _. answers.FlushHalf) result) self.old self.new }
    {
        self.engine.flush_half(space, page, &mut self.disk)
    }

    /// Writes the second half of a page whose first half is written. The page is clean then, or
    /// dirty from its first change after the flush began.
    pub fn flush_land(&mut self, space: u32, page: u32) -> Result<(), EngineRefusal>
        ensures acts { EngineActs (call.FlushLand space page)
            (answer_of (λ _. answers.FlushLand) result) self.old self.new }
    {
        self.engine.flush_land(space, page, &mut self.disk)
    }

    /// The dirty page to be flushed next, by its space and its number, or none where no dirty page
    /// waits for that.
    pub fn oldest_dirty(&self) -> Option<(u32, u32)>
        ensures { Steps call.OldestDirty self.now.engine self.now.engine
            (Ok (answers.OldestDirty result)) }
    {
        self.engine.oldest_dirty()
    }

    /// A checkpoint: the LSN at which the oldest change begins that isn't on the disk, or the log's
    /// end where no page is dirty. The log below it may go, but for what the archive needs.
    pub fn checkpoint(&mut self) -> u64
        ensures checks { Checks (kept_from self.old.cloning.archive) self.old.engine
            self.new.engine result }
        ensures acts { EngineActs call.Checkpoint (Ok (answers.Checkpoint result)) self.old
            self.new }
    {
        self.engine.checkpoint()
    }
}
