//! A script in a donor's place: it answers each call as its fields say, and notes the calls.
ghost use Rattle.std.specs.Prelude.{◌≡◌, IfOk, true, false};
ghost use Rattle.clone_calls.specs.Answering.{IsBlockIn, is_redo};

use clone_calls::{Answers, Block, BlockRefusal, DonorAnswer, DonorCall};
use clone_chunk::{CloneCause, RedoBytes, Spaces, StagePlan};
use clone_page::{Page, PageAt, Pages};
use clone_plain::{Cause, EngineRefusal};
use clone_session::{Caller, CloneRefusal, StageInfo};
use std::alloc::{AllocError, Global};

/// The LSN at which the block of redo ends, which has three bytes.
pub const UNTIL: u64 = 8_195;

/// A call: its name, the caller's session, incarnation and task, and two of its own values, 0 where
/// it has none.
pub type Noted = (&'static str, u64, u32, u8, u64, u64);

/// How calls are answered.
#[derive(Drop)]
pub struct Script {
    // Calls of this name are refused for this cause, or all of them where it is empty.
    cause: Option<CloneCause>,
    refuses: &'static str,
    /// No call finds memory.
    pub no_memory: bool,
    /// The disk fails.
    pub fault: bool,
    /// How many chunks are free, from chunk 0 on.
    pub free: u32,
    /// How many were claimed.
    pub claimed: u32,
    /// The mask of the blocks that the requester has.
    pub kept: u8,
    /// The chunk's last block.
    pub last: u8,
    /// The LSN up to which the redo is archived, and by how much of a limit it is raised.
    pub archived: u64,
    pub raises: bool,
    /// The calls in their order.
    pub noted: Vec<Noted>,
}

impl Script {
    /// Nothing is refused, one chunk of one block is free, and all redo is archived.
    pub fn new(alloc: Global) -> Script {
        Script {
            cause: None,
            refuses: "",
            no_memory: false,
            fault: false,
            free: 1,
            claimed: 0,
            kept: 0,
            last: 0,
            archived: 1 << 38,
            raises: true,
            noted: Vec::new(alloc),
        }
    }

    /// From now on calls of this name are refused for this cause, or all of them where it is empty.
    pub fn refuse(&mut self, name: &'static str, cause: CloneCause) {
        self.refuses = name;
        self.cause = Some(cause);
    }

    fn note(&mut self, name: &'static str, caller: Caller, first: u64, second: u64) {
        let call = (
            name,
            caller.session,
            caller.incarnation,
            caller.task,
            first,
            second,
        );
        let _ = self.noted.push(call);
    }

    // A cause or out of memory, where calls of this name are refused.
    fn refusal(&self, name: &str) -> Result<(), CloneRefusal> {
        if self.no_memory {
            return Err(CloneRefusal::NoMemory);
        }
        Ok(self.allows(name)?)
    }

    fn allows(&self, name: &str) -> Result<(), CloneCause> {
        match self.cause {
            Some(cause) if self.refuses.is_empty() || self.refuses == name => Err(cause),
            _ => Ok(()),
        }
    }

    // The stage that follows this one.
    fn told(&self, alloc: Global, caller: Caller, after: u8) -> Result<StageInfo, CloneRefusal> {
        self.refusal("")?;
        Ok(StageInfo {
            session: caller.session,
            incarnation: caller.incarnation,
            plan: plan_after(alloc, after)?,
        })
    }

    fn read(&self, alloc: Global, stage: u8, block: u8) -> Result<(Block, bool), BlockRefusal>
        ensures { IsBlockIn stage result }
    {
        if let Err(refusal) = self.refusal("read") {
            return Err(BlockRefusal::Clone(refusal));
        }
        if self.fault {
            return Err(EngineRefusal::Because(Cause::DiskFault).into());
        }
        let last = block == self.last;
        if stage != 3 {
            return Ok((page_block(alloc)?, last));
        }
        let until = UNTIL;
        if self.archived < until {
            let archived = self.archived;
            return Err(CloneCause::ArchiveBehind { archived, until }.into());
        }
        Ok((redo_block(alloc)?, last))
    }
}

impl Answers for Script {
    ghost use Rattle.std.specs.Prelude.{⊤};

    ghost gives = { λ _ _ _ _. ⊤ };

    fn answer(&mut self, alloc: Global, call: DonorCall) -> DonorAnswer {
        match call {
            DonorCall::Init { hello } => {
                let caller = Caller {
                    session: hello.session,
                    incarnation: hello.incarnation,
                    task: hello.tasks,
                };
                self.note("init", caller, hello.version as u64, hello.page_size as u64);
                DonorAnswer::Init(self.told(alloc, caller, 0))
            }
            DonorCall::Attach { caller } => {
                self.note("attach", caller, 0, 0);
                DonorAnswer::Attach(self.told(alloc, caller, 0))
            }
            DonorCall::Reinit {
                caller,
                stage,
                finished,
            } => {
                self.note("reinit", caller, stage as u64, finished.count() as u64);
                DonorAnswer::Reinit(self.told(alloc, caller, 0))
            }
            DonorCall::ReinitBlocks {
                caller,
                stage,
                taken,
            } => {
                let partial = taken.partials().as_slice().len() as u64;
                self.note("reinit_blocks", caller, stage as u64, partial);
                DonorAnswer::ReinitBlocks(self.told(alloc, caller, 0))
            }
            DonorCall::Kept {
                caller,
                stage,
                chunk,
            } => {
                self.note("kept", caller, stage as u64, chunk as u64);
                DonorAnswer::Kept(self.mask())
            }
            DonorCall::Execute { caller, stage } => {
                self.note("execute", caller, stage as u64, 0);
                DonorAnswer::Execute(self.allows("execute"))
            }
            DonorCall::Claim { caller, stage } => {
                self.note("claim", caller, stage as u64, 0);
                DonorAnswer::Claim(self.claim())
            }
            DonorCall::ReadBlock {
                caller,
                stage,
                chunk,
                block,
            } => {
                self.note("read", caller, chunk as u64, block as u64);
                DonorAnswer::ReadBlock(self.read(alloc, stage, block))
            }
            DonorCall::Ack {
                caller,
                stage,
                floor,
            } => {
                self.note("ack", caller, stage as u64, floor);
                DonorAnswer::Ack(self.told(alloc, caller, stage))
            }
            DonorCall::Exit { caller } => {
                self.note("exit", caller, 0, 0);
                DonorAnswer::Exit(self.allows("exit"))
            }
            DonorCall::Archive { limit } => {
                let _ = self.noted.push(("archive", 0, 0, 0, limit, 0));
                DonorAnswer::Archive(self.archive(limit))
            }
            // No command makes these.
            DonorCall::Engine { .. } => DonorAnswer::Engine(Err(EngineRefusal::NoMemory)),
            DonorCall::Abandon { .. } => DonorAnswer::Abandon(Err(CloneCause::NoSuchSession)),
        }
    }
}

impl Script {
    fn mask(&self) -> Result<u8, CloneCause> {
        self.allows("kept")?;
        Ok(self.kept)
    }

    fn claim(&mut self) -> Result<Option<u32>, CloneCause> {
        self.allows("claim")?;
        if self.claimed >= self.free {
            return Ok(None);
        }
        let chunk = self.claimed;
        self.claimed = chunk.wrapping_add(1);
        Ok(Some(chunk))
    }

    fn archive(&mut self, limit: u64) -> Result<Option<u64>, AllocError> {
        if self.no_memory {
            return Err(AllocError);
        }
        if self.raises {
            self.archived = self.archived.wrapping_add(limit);
        }
        Ok(Some(self.archived))
    }
}

// What is copied in the stage after this one.
fn plan_after(alloc: Global, stage: u8) -> Result<StagePlan, AllocError> {
    let (chunks, checkpoint, lsn, position) = (1, 8_192, 8_573, 1);
    Ok(match stage {
        0 => StagePlan::FileCopy {
            chunks: 6,
            spaces: Spaces::of_pairs(alloc, &[(0, 257), (1, 4)])?,
        },
        1 => StagePlan::PageCopy {
            chunks,
            position: 5,
            spaces: Spaces::new(alloc),
        },
        2 => StagePlan::RedoCopy {
            chunks,
            checkpoint,
            lsn,
            position,
        },
        _ => StagePlan::Done {
            checkpoint,
            lsn,
            position,
        },
    })
}

// Page 3 of space 2, whose bytes are zero.
fn page_block(alloc: Global) -> Result<Block, AllocError>
    ensures { IfOk result (λ block. is_redo block ≡ false) }
{
    let page = PageAt {
        space: 2,
        number: 3,
        page: Page::zero(),
    };
    let list = match Vec::from_array(alloc, [page]) {
        Ok(list) => list,
        Err(refused) => return Err(refused.into()),
    };
    Ok(Block::Pages(Pages::new(list)))
}

// Three bytes of redo from 8,192 on.
fn redo_block(alloc: Global) -> Result<Block, AllocError>
    ensures { IfOk result (λ block. is_redo block ≡ true) }
{
    Ok(Block::Redo {
        from: 8_192,
        bytes: RedoBytes::new(alloc, &[7, 8, 9])?,
    })
}
