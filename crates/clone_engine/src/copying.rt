ghost use Rattle.std.specs.Prelude.{◌≡◌, ◌≤◌, Err, IfOk, IsErr, length};
ghost use Rattle.std.specs.FinMap as finite;
ghost use Rattle.clone_outside.specs.DiskCalls.{DiskState};
ghost use Rattle.clone_archive.specs.Archived.{kept_from};
ghost use Rattle.clone_flush.specs.Calls.{nearest_in, settled};
ghost use Rattle.clone_ring.specs.Window.{end_of};
ghost use Rattle.clone_chunk.specs.Stages.{stage_number};
ghost use Rattle.clone_chunk.specs.declared.stage.Stage.TheVariants.{FileCopy};
ghost use Rattle.clone_session.specs.CloneCalls.{CanArchive, IsMoment};
ghost use Rattle.clone_session.specs.declared.refusal.CloneRefusal.TheVariants.{NoMemory};
ghost use Rattle.clone_calls.specs.declared.answer.DonorAnswer.TheVariants as answer;
ghost use Rattle.clone_calls.specs.declared.call.DonorCall.TheVariants as call;
ghost use Rattle.clone_engine.specs.Acts.{CloneActs};
ghost use Rattle.clone_engine.specs.Donor.{IsDonor};
ghost use Rattle.clone_engine.specs.Engine.{AreOfDonor};
ghost use Rattle.clone_engine.specs.Over.{over};

use crate::Engine;
use clone_chunk::{Bitmap, CloneCause, Stage, TakenBlocks};
use clone_session::{Caller, CloneRefusal, Hello, Moment, StageInfo};
use std::alloc::{AllocError, Global};

// The calls of a clone, but for its blocks. They ask no disk, and do the same over any.
impl Engine {
    /// A session begins with the copy of files: of the system space and of the tables, each with
    /// the number of pages that its file has. The pages whose write is open are tracked from the
    /// start. Where the session stands, a later incarnation begins it again.
    pub fn init(&mut self, alloc: Global, hello: &Hello) -> Result<StageInfo, CloneRefusal>
        requires files { AreOfDonor self.old.transactions self.old.flusher.files }
        ensures acts { (disk : DiskState) → IsDonor (over self.old disk)
            → CloneActs (call.Init hello.now) (answer.Init result)
            (over self.old disk) (over self.new disk) }
    {
        self.cloning.hello(hello)?;
        self.transactions.laws();
        self.buffer.laws();
        self.cloning.laws();
        if self.cloning.session().is_some() {
            return Ok(self.cloning.reopen(alloc, hello)?);
        }
        let files = self.flusher.files(alloc)?;
        let open = self.buffer.open_pages(alloc)?;
        Ok(self.cloning.open(alloc, hello, &files, &open)?)
    }

    /// A task joins the session, and is told the stage that it has come to. Nothing changes.
    pub fn attach(&self, alloc: Global, caller: Caller) -> Result<StageInfo, CloneRefusal>
        ensures acts { (disk : DiskState) → IsDonor (over self.now disk)
            → CloneActs (call.Attach caller) (answer.Attach result)
            (over self.now disk) (over self.now disk) }
    {
        self.cloning.attach(alloc, caller)
    }

    /// A later incarnation joins the session, which stays in its stage. Where the requester is in
    /// it too, the chunks that have their bit are finished. Where it is in the stage before, none
    /// is. No claim stays.
    pub fn reinit(
        &mut self,
        alloc: Global,
        caller: Caller,
        stage: u8,
        finished: &Bitmap,
    ) -> Result<StageInfo, CloneRefusal>
        ensures acts { (disk : DiskState) → IsDonor (over self.old disk)
            → CloneActs (call.Reinit caller stage finished.now) (answer.Reinit result)
            (over self.old disk) (over self.new disk) }
    {
        self.cloning.reinit(alloc, caller, stage, finished.bytes())
    }

    /// A later incarnation joins the session as with `reinit`. Of a chunk that isn't finished, the
    /// blocks that were taken are kept, and one of which all were taken is finished.
    pub fn reinit_blocks(
        &mut self,
        alloc: Global,
        caller: Caller,
        stage: u8,
        taken: &TakenBlocks,
    ) -> Result<StageInfo, CloneRefusal>
        ensures acts { (disk : DiskState) → IsDonor (over self.old disk)
            → CloneActs (call.ReinitBlocks caller stage taken.now) (answer.ReinitBlocks result)
            (over self.old disk) (over self.new disk) }
    {
        self.cloning.reinit_blocks(
            alloc,
            caller,
            stage,
            taken.finished().bytes(),
            taken.partials().as_slice(),
        )
    }

    /// Whether a claim would be carried out. Nothing changes, and no memory is taken.
    pub fn execute(&self, caller: Caller, stage: u8) -> Result<(), CloneCause>
        ensures acts { (disk : DiskState) → IsDonor (over self.now disk)
            → CloneActs (call.Execute caller stage) (answer.Execute result)
            (over self.now disk) (over self.now disk) }
    {
        self.cloning.execute(caller, stage)
    }

    /// Which blocks of a claimed chunk the requester has, as a mask: the bit of value 2^b is set
    /// where it has block b. No memory is taken.
    pub fn kept(&self, caller: Caller, stage: u8, chunk: u32) -> Result<u8, CloneCause>
        ensures acts { (disk : DiskState) → IsDonor (over self.now disk)
            → CloneActs (call.Kept caller stage chunk) (answer.Kept result)
            (over self.now disk) (over self.now disk) }
    {
        self.cloning.kept(caller, stage, chunk)
    }

    /// The least chunk that is neither claimed nor finished, which is the task's from then on, or
    /// none exactly where there is no such chunk. No memory is taken.
    pub fn claim(&mut self, caller: Caller, stage: u8) -> Result<Option<u32>, CloneCause>
        ensures acts { (disk : DiskState) → IsDonor (over self.old disk)
            → CloneActs (call.Claim caller stage) (answer.Claim result)
            (over self.old disk) (over self.new disk) }
    {
        self.cloning.claim(caller, stage)
    }

    /// A stage is acknowledged. That of the donor's stage ends it: after the copy of files the log
    /// is archived from the last checkpoint on, and the copy of pages ends with the stop. The floor
    /// may not be above the number of commits at the stop. The answer lists the spaces that were
    /// created while files were copied. That of the copy of files alone takes memory.
    pub fn ack(
        &mut self,
        alloc: Global,
        caller: Caller,
        stage: u8,
        floor: u64,
    ) -> Result<StageInfo, CloneRefusal>
        requires files { AreOfDonor self.old.transactions self.old.flusher.files }
        requires ring { self.old.cloning.ring ≡ self.old.buffer.ring.size }
        requires archives { CanArchive self.old.cloning self.old.buffer.ring }
        ensures memory { result ≡ Err NoMemory → stage ≡ stage_number FileCopy }
        ensures acts { (disk : DiskState) → IsDonor (over self.old disk)
            → CloneActs (call.Ack caller stage floor) (answer.Ack result)
            (over self.old disk) (over self.new disk) }
    {
        let now = self.moment();
        self.transactions.laws();
        self.buffer.laws();
        self.cloning.laws();
        self.cloning
            .acknowledgement(caller, stage, floor, now.position)?;
        let files = self.files_at(alloc, stage)?;
        let info = self
            .cloning
            .acknowledge(alloc, caller, stage, floor, now, &files)?;
        self.settle();
        Ok(info)
    }

    // The files, each a space with its number of pages, at an acknowledgement of the copy of files.
    // Those of later stages need none.
    fn files_at(&self, alloc: Global, stage: u8) -> Result<Vec<(u32, u32)>, AllocError>
        ensures files { IfOk result (λ files. stage ≡ stage_number FileCopy
            → files.items ≡ finite.entries self.now.flusher.files) }
        ensures few { IfOk result (λ files.
            length files.items ≤ finite.len self.now.flusher.files) }
        ensures memory { IsErr result → stage ≡ stage_number FileCopy }
    {
        if stage == Stage::FileCopy.number() {
            self.flusher.files(alloc)
        } else {
            Ok(Vec::new(alloc))
        }
    }

    // This moment of the engine.
    fn moment(&self) -> Moment
        requires ring { self.now.cloning.ring ≡ self.now.buffer.ring.size }
        requires archives { CanArchive self.now.cloning self.now.buffer.ring }
        ensures now { result ≡ record {
          checkpoint = nearest_in self.now.buffer.ring self.now.flusher.checkpoint;
          end = end_of self.now.buffer.ring;
          position = length self.now.transactions.binlog;
          drops = length self.now.transactions.drops;
        } }
        ensures is { IsMoment self.now.cloning result }
    {
        self.buffer.laws();
        let _ = self.buffer.ring().free();
        Moment {
            checkpoint: self.flusher.start_within(&self.buffer),
            end: self.buffer.ring().end(),
            position: self.transactions.binlog().len() as u64,
            drops: self.transactions.drops().len() as u64,
        }
    }

    /// The requester has left, and the session is gone. No memory is taken.
    pub fn exit(&mut self, caller: Caller) -> Result<(), CloneCause>
        ensures acts { (disk : DiskState) → IsDonor (over self.old disk)
            → CloneActs (call.Exit caller) (answer.Exit result)
            (over self.old disk) (over self.new disk) }
    {
        self.buffer.laws();
        self.cloning.exit(caller)?;
        self.settle();
        Ok(())
    }

    /// The session of this number is given up. No memory is taken.
    pub fn abandon(&mut self, session: u64) -> Result<(), CloneCause>
        ensures acts { (disk : DiskState) → IsDonor (over self.old disk)
            → CloneActs (call.Abandon session) (answer.Abandon result)
            (over self.old disk) (over self.new disk) }
    {
        self.buffer.laws();
        self.cloning.abandon(session)?;
        self.settle();
        Ok(())
    }

    /// Archives so many bytes of the log, or as many as are left up to its end, or to the stop. The
    /// answer is the LSN up to which the redo is archived, or none exactly where no archive stands.
    /// The error is that memory ran out, and nothing has changed then.
    pub fn archive(&mut self, limit: u64) -> Result<Option<u64>, AllocError>
        requires archives { CanArchive self.old.cloning self.old.buffer.ring }
        ensures acts { (disk : DiskState) → IsDonor (over self.old disk)
            → CloneActs (call.Archive limit) (answer.Archive result)
            (over self.old disk) (over self.new disk) }
    {
        self.buffer.laws();
        let archived = self.cloning.archive(self.buffer.ring(), limit)?;
        self.settle();
        Ok(archived)
    }

    // Lets the log go that isn't needed, once a clone needs less of it.
    fn settle(&mut self)
        ensures { self.new ≡ record self.old {
          buffer = settled self.old.flusher.checkpoint (kept_from self.old.cloning.archive)
              self.old.buffer;
        } }
    {
        self.flusher
            .settle_floor(&mut self.buffer, self.cloning.kept_from());
    }
}
