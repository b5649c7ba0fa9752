ghost use Rattle.std.specs.Prelude.{◌≡◌, IfErr, IsErr, OnOk};
ghost use Rattle.clone_outside.specs.DiskCalls.{Reads};
ghost use Rattle.clone_plain.specs.declared.refusal.Cause.TheVariants as cause;
ghost use Rattle.clone_engine.specs.Engine.{IsEngine};
ghost use Rattle.clone_engine.specs.Over.{over};
ghost use Rattle.clone_engine.specs.Reading.{ReadsFile, ReadsPage, read_answer};

use crate::Engine;
use clone_base::PAGE_SIZE;
use clone_outside::{PageDisk, Refusal};
use clone_plain::{Cause, EngineRefusal};

// What a clone reads of a donor.
impl Engine {
    // Reads a page as the disk has it, whatever its frame has. What comes of a page whose write is
    // open there, or that isn't there, is left open. This takes no memory.
    pub(crate) fn file_page<D: PageDisk>(
        &self,
        space: u32,
        number: u32,
        into: &mut [u8; PAGE_SIZE],
        disk: &mut D,
    ) -> Result<(), EngineRefusal>
        requires engine { IsEngine (over self.now (D.state disk.old)).engine }
        ensures read { OnOk result
            (ReadsFile (over self.now (D.state disk.old)).engine space number into.new) }
        ensures refused { IfErr result
            (λ refusal. refusal ≡ EngineRefusal.Because cause.DiskFault) }
        ensures reads { Reads (IsErr result) (D.state disk.old) (D.state disk.new) }
    {
        self.buffer.laws();
        answered(disk.read_page(space, number, into))
    }

    // Reads a page as it is now: as its frame has it, if it has one, and else as the disk has it.
    // It takes no frame, and counts as no use of one. This takes no memory.
    pub(crate) fn latest_page<D: PageDisk>(
        &self,
        space: u32,
        number: u32,
        into: &mut [u8; PAGE_SIZE],
        disk: &mut D,
    ) -> Result<(), EngineRefusal>
        requires engine { IsEngine (over self.now (D.state disk.old)).engine }
        ensures read { OnOk result
            (ReadsPage (over self.now (D.state disk.old)).engine space number into.new) }
        ensures refused { IfErr result
            (λ refusal. refusal ≡ EngineRefusal.Because cause.DiskFault) }
        ensures reads { Reads (IsErr result) (D.state disk.old) (D.state disk.new) }
    {
        self.buffer.laws();
        answered(self.buffer.read_latest(disk, space, number, into))
    }
}

// What a read of a page answers, which takes no memory.
fn answered(read: Result<(), Refusal>) -> Result<(), EngineRefusal>
    ensures { result ≡ read_answer read }
{
    match read {
        Ok(()) => Ok(()),
        Err(_) => Err(Cause::DiskFault.into()),
    }
}
