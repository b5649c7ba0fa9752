use crate::{Block, BlockRefusal};
use clone_chunk::CloneCause;
use clone_plain::{EngineAnswer, EngineRefusal};
use clone_session::{CloneRefusal, StageInfo};
use std::alloc::AllocError;

/// The answer of a donor to a call.
#[derive(Drop)]
pub enum DonorAnswer {
    /// That of the engine.
    Engine(Result<EngineAnswer, EngineRefusal>),
    /// The stage that the session has come to.
    Init(Result<StageInfo, CloneRefusal>),
    /// The stage that the session has come to.
    Attach(Result<StageInfo, CloneRefusal>),
    /// The stage that the session has come to.
    Reinit(Result<StageInfo, CloneRefusal>),
    /// The stage that the session has come to.
    ReinitBlocks(Result<StageInfo, CloneRefusal>),
    /// A mask: the bit of value 2^b is set where the requester has block b.
    Kept(Result<u8, CloneCause>),
    /// A claim would be carried out.
    Execute(Result<(), CloneCause>),
    /// The chunk, or none where none is free.
    Claim(Result<Option<u32>, CloneCause>),
    /// The block, and whether it is the chunk's last.
    ReadBlock(Result<(Block, bool), BlockRefusal>),
    /// The stage that the session has come to.
    Ack(Result<StageInfo, CloneRefusal>),
    /// The session is gone.
    Exit(Result<(), CloneCause>),
    /// The session is gone.
    Abandon(Result<(), CloneCause>),
    /// The LSN up to which the redo is archived, or none where no archive stands.
    Archive(Result<Option<u64>, AllocError>),
}
