use clone_chunk::CopyStage;
use clone_session::Caller;

/// An EXECUTE that is served: whose it is, and of which stage.
#[derive(Clone, Copy)]
pub struct Execution {
    pub caller: Caller,
    pub stage: CopyStage,
}

/// A block of a claimed chunk, and the mask of the chunk's blocks that the requester has.
#[derive(Clone, Copy)]
pub struct Place {
    pub chunk: u32,
    pub kept: u8,
    pub block: u8,
}

/// What is asked next for an EXECUTE.
#[derive(Clone, Copy)]
pub enum Work {
    /// A chunk.
    Claim,
    /// Which blocks of the claimed chunk the requester has.
    Weigh { chunk: u32 },
    /// A block, or the same block again once redo was archived.
    Read { place: Place, again: bool },
    /// To archive so much redo, up to the end of the block.
    Archive { place: Place, limit: u64 },
}

/// What the donor's side of a connection is doing.
#[derive(Clone, Copy)]
pub enum Doing {
    /// No command was taken yet.
    New,
    /// The next command of this caller is awaited.
    Ready { caller: Caller },
    /// A call was asked whose answer is a stage.
    Telling { caller: Caller },
    /// It was asked whether an EXECUTE may be served.
    Starting { execution: Execution },
    /// The requester leaves, and that was asked.
    Leaving,
    /// An EXECUTE is served.
    Serving { execution: Execution, work: Work },
    /// It is over.
    Over,
}
