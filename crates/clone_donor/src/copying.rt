ghost use Rattle.std.specs.Prelude.{◌≡◌, ◌==◌, Err, IfOk};
ghost use Rattle.clone_chunk.specs.Stages.{stage_number};
ghost use Rattle.clone_chunk.specs.declared.stage.Stage.TheVariants.{FileCopy, RedoCopy};
ghost use Rattle.clone_session.specs.declared.refusal.CloneRefusal.TheVariants.{NoMemory};
ghost use Rattle.clone_calls.specs.Answering.{is_redo};
ghost use Rattle.clone_calls.specs.declared.answer.DonorAnswer.TheVariants as answer;
ghost use Rattle.clone_calls.specs.declared.call.DonorCall.TheVariants as call;
ghost use Rattle.clone_engine.specs.Acts.{CloneActs};

use crate::Donor;
use clone_calls::{Block, BlockRefusal};
use clone_chunk::{Bitmap, CloneCause, TakenBlocks};
use clone_outside::PageDisk;
use clone_session::{Caller, CloneRefusal, Hello, StageInfo};
use std::alloc::{AllocError, Global};

// The calls of a clone.
impl<D: PageDisk> Donor<D> {
    /// A session begins with the copy of files: of the system space and of the tables, each with
    /// the number of pages that its file has. The pages whose write is open are tracked from the
    /// start. Where the session stands, a later incarnation begins it again.
    pub fn init(&mut self, alloc: Global, hello: &Hello) -> Result<StageInfo, CloneRefusal>
        ensures acts { CloneActs (call.Init hello.now) (answer.Init result) self.old self.new }
    {
        self.engine.init(alloc, hello)
    }

    /// A task joins the session, and is told the stage that it has come to. Nothing changes.
    pub fn attach(&self, alloc: Global, caller: Caller) -> Result<StageInfo, CloneRefusal>
        ensures acts { CloneActs (call.Attach caller) (answer.Attach result) self.now self.now }
    {
        self.engine.attach(alloc, caller)
    }

    /// A later incarnation joins the session, which stays in its stage. Where the requester is in
    /// it too, the chunks that have their bit are finished. Where it is in the stage before, none
    /// is. No claim stays.
    pub fn reinit(
        &mut self,
        alloc: Global,
        caller: Caller,
        stage: u8,
        finished: &Bitmap,
    ) -> Result<StageInfo, CloneRefusal>
        ensures acts { CloneActs (call.Reinit caller stage finished.now) (answer.Reinit result)
            self.old self.new }
    {
        self.engine.reinit(alloc, caller, stage, finished)
    }

    /// A later incarnation joins the session as with `reinit`. Of a chunk that isn't finished, the
    /// blocks that were taken are kept, and one of which all were taken is finished.
    pub fn reinit_blocks(
        &mut self,
        alloc: Global,
        caller: Caller,
        stage: u8,
        taken: &TakenBlocks,
    ) -> Result<StageInfo, CloneRefusal>
        ensures acts { CloneActs (call.ReinitBlocks caller stage taken.now)
            (answer.ReinitBlocks result) self.old self.new }
    {
        self.engine.reinit_blocks(alloc, caller, stage, taken)
    }

    /// Whether a claim would be carried out. Nothing changes, and no memory is taken.
    pub fn execute(&self, caller: Caller, stage: u8) -> Result<(), CloneCause>
        ensures acts { CloneActs (call.Execute caller stage) (answer.Execute result)
            self.now self.now }
    {
        self.engine.execute(caller, stage)
    }

    /// Which blocks of a claimed chunk the requester has, as a mask: the bit of value 2^b is set
    /// where it has block b. No memory is taken.
    pub fn kept(&self, caller: Caller, stage: u8, chunk: u32) -> Result<u8, CloneCause>
        ensures acts { CloneActs (call.Kept caller stage chunk) (answer.Kept result)
            self.now self.now }
    {
        self.engine.kept(caller, stage, chunk)
    }

    /// The least chunk that is neither claimed nor finished, which is the task's from then on, or
    /// none exactly where there is no such chunk. No memory is taken.
    pub fn claim(&mut self, caller: Caller, stage: u8) -> Result<Option<u32>, CloneCause>
        ensures acts { CloneActs (call.Claim caller stage) (answer.Claim result)
            self.old self.new }
    {
        self.engine.claim(caller, stage)
    }

    /// A stage is acknowledged. That of the donor's stage ends it: after the copy of files the log
    /// is archived from the last checkpoint on, and the copy of pages ends with the stop. The floor
    /// may not be above the number of commits at the stop. The answer lists the spaces that were
    /// created while files were copied. That of the copy of files alone takes memory.
    pub fn ack(
        &mut self,
        alloc: Global,
        caller: Caller,
        stage: u8,
        floor: u64,
    ) -> Result<StageInfo, CloneRefusal>
        ensures memory { result ≡ Err NoMemory → stage ≡ stage_number FileCopy }
        ensures acts { CloneActs (call.Ack caller stage floor) (answer.Ack result)
            self.old self.new }
    {
        self.engine.ack(alloc, caller, stage, floor)
    }

    /// The requester has left, and the session is gone. No memory is taken.
    pub fn exit(&mut self, caller: Caller) -> Result<(), CloneCause>
        ensures acts { CloneActs (call.Exit caller) (answer.Exit result) self.old self.new }
    {
        self.engine.exit(caller)
    }

    /// The session of this number is given up. No memory is taken.
    pub fn abandon(&mut self, session: u64) -> Result<(), CloneCause>
        ensures acts { CloneActs (call.Abandon session) (answer.Abandon result) self.old self.new }
    {
        self.engine.abandon(session)
    }

    /// Archives so many bytes of the log, or as many as are left up to its end, or to the stop. The
    /// answer is the LSN up to which the redo is archived, or none exactly where no archive stands.
    /// The error is that memory ran out, and nothing has changed then.
    pub fn archive(&mut self, limit: u64) -> Result<Option<u64>, AllocError>
        ensures acts { CloneActs (call.Archive limit) (answer.Archive result)
            self.old self.new }
    {
        self.engine.archive(limit)
    }

    /// A block of a chunk that the task has claimed: pages as the disk has them while files are
    /// copied, pages as they are after that, or redo that is archived. And whether the block was its
    /// chunk's last; then the chunk is finished. After an error nothing has changed but the disk's
    /// count of faults.
    pub fn read_block(
        &mut self,
        alloc: Global,
        caller: Caller,
        stage: u8,
        chunk: u32,
        number: u8,
    ) -> Result<(Block, bool), BlockRefusal>
        ensures kind { IfOk result (λ given. is_redo given.0 ≡ (stage == stage_number RedoCopy)) }
        ensures acts { CloneActs (call.ReadBlock caller stage chunk number)
            (answer.ReadBlock result) self.old self.new }
    {
        self.engine
            .read_block(alloc, caller, stage, chunk, number, &mut self.disk)
    }
}
