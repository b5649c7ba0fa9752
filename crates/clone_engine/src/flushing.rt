ghost use Rattle.std.specs.Prelude.{◌≡◌, Ok};
ghost use Rattle.clone_outside.specs.DiskCalls.{DiskState};
ghost use Rattle.clone_archive.specs.Archived.{kept_from};
ghost use Rattle.clone_plain.specs.declared.call.EngineCall.TheVariants as call;
ghost use Rattle.clone_plain.specs.declared.call.EngineAnswer.TheVariants as answers;
ghost use Rattle.clone_engine.specs.Acts.{EngineActs};
ghost use Rattle.clone_engine.specs.Donor.{IsDonor};
ghost use Rattle.clone_engine.specs.Over.{over};
ghost use Rattle.clone_engine.specs.Steps.{Checks, IsOldestDirty, answer_of, flush_answer, has_begun, refusal_of};

use crate::Engine;
use clone_flush::FlushRefusal;
use clone_outside::PageDisk;
use clone_plain::{Cause, EngineRefusal};

// The flushes and the checkpoint.
impl Engine {
    /// The flush of a page begins: its image is what will be written, and the tracker of a clone
    /// that is in its file copy notes the page. A file that ends before the page is lengthened
    /// first, and where the disk fails at that, the flush has begun and failed.
    pub fn flush_begin<D: PageDisk>(
        &mut self,
        space: u32,
        page: u32,
        disk: &mut D,
    ) -> Result<(), EngineRefusal>
        requires donor { IsDonor (over self.old (D.state disk.old)) }
        ensures acts { EngineActs (call.FlushBegin space page)
            (answer_of (λ _. answers.FlushBegin) result)
            (over self.old (D.state disk.old)) (over self.new (D.state disk.new)) }
    {
        self.cloning.laws();
        if self.cloning.reserve_note().is_err() {
            return Err(EngineRefusal::NoMemory);
        }
        self.buffer.laws();
        let begun = answered(self.flusher.begin(&mut self.buffer, space, page, disk));
        self.buffer.laws();
        if !has_begun(begun) {
            return begun;
        }
        self.cloning.note(space, page);
        begun
    }

    /// Writes the first half of a page whose flush has begun.
    pub fn flush_half<D: PageDisk>(
        &mut self,
        space: u32,
        page: u32,
        disk: &mut D,
    ) -> Result<(), EngineRefusal>
        requires donor { IsDonor (over self.old (D.state disk.old)) }
        ensures acts { EngineActs (call.FlushHalf space page)
            (answer_of (λ _. answers.FlushHalf) result)
            (over self.old (D.state disk.old)) (over self.new (D.state disk.new)) }
    {
        let written = answered(self.flusher.half(&mut self.buffer, space, page, disk));
        self.buffer.laws();
        written
    }

    /// Writes the second half of a page whose first half is written. The page is clean then, or
    /// dirty from its first change after the flush began.
    pub fn flush_land<D: PageDisk>(
        &mut self,
        space: u32,
        page: u32,
        disk: &mut D,
    ) -> Result<(), EngineRefusal>
        requires donor { IsDonor (over self.old (D.state disk.old)) }
        ensures acts { EngineActs (call.FlushLand space page)
            (answer_of (λ _. answers.FlushLand) result)
            (over self.old (D.state disk.old)) (over self.new (D.state disk.new)) }
    {
        let written = answered(self.flusher.land(&mut self.buffer, space, page, disk));
        self.buffer.laws();
        written
    }

    /// The dirty page to be flushed next, by its space and its number, or none where no dirty page
    /// waits for that.
    pub fn oldest_dirty(&self) -> Option<(u32, u32)>
        ensures { IsOldestDirty self.now.buffer result }
    {
        self.flusher.oldest_dirty(&self.buffer)
    }

    /// A checkpoint: the LSN at which the oldest change begins that isn't on the disk, or the log's
    /// end where no page is dirty. The log below it may go, but for what the archive needs.
    pub fn checkpoint(&mut self) -> u64
        ensures checks { (disk : DiskState) → Checks (kept_from self.old.cloning.archive)
            (over self.old disk).engine (over self.new disk).engine result }
        ensures acts { (disk : DiskState) → IsDonor (over self.old disk)
            → EngineActs call.Checkpoint (Ok (answers.Checkpoint result)) (over self.old disk)
            (over self.new disk) }
    {
        self.buffer.laws();
        self.flusher
            .checkpoint(&mut self.buffer, self.cloning.kept_from())
    }
}

// What a call of a flush answers, as a donor answers it.
fn answered(flushed: Result<(), FlushRefusal>) -> Result<(), EngineRefusal>
    ensures { result ≡ flush_answer flushed }
{
    match flushed {
        Ok(()) => Ok(()),
        Err(refusal) => Err(refused(refusal)),
    }
}

// Why a flush is refused, as a donor answers it.
fn refused(refusal: FlushRefusal) -> EngineRefusal
    ensures { result ≡ refusal_of refusal }
{
    match refusal {
        FlushRefusal::NotDirty => Cause::NotDirty.into(),
        FlushRefusal::InFlight => Cause::InFlight.into(),
        FlushRefusal::NoFlush => Cause::NoFlush.into(),
        FlushRefusal::DiskFault => Cause::DiskFault.into(),
        FlushRefusal::NoMemory => EngineRefusal::NoMemory,
    }
}

// Whether the flush of a page began by this answer, also where it failed at once.
fn has_begun(begun: Result<(), EngineRefusal>) -> bool
    ensures { result ≡ has_begun begun }
{
    match begun {
        Ok(()) | Err(EngineRefusal::Because(Cause::DiskFault)) => true,
        Err(_) => false,
    }
}
