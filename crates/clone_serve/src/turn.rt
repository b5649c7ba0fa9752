use clone_calls::DonorCall;
use clone_chunk::CloneCause;
use clone_stream::Kept;

/// What came of a step of the donor's side.
#[derive(Drop)]
pub enum ServeAnswer {
    /// There was nothing to do.
    Idle,
    /// A block of pages was sent.
    SentPages { chunk: u32, block: u8 },
    /// A block of redo was sent.
    SentRedo { chunk: u32, block: u8 },
    /// No chunk is free, and END was sent.
    SentEnd,
    /// A stage was sent, from the copy of redo on with its LSN and position.
    Answered { stage: u8, lsn: u64, position: u64 },
    /// Blocks are served from now on.
    Execute,
    /// The requester has left.
    Exit,
    /// The donor refused, and the refusal was sent.
    Refused(CloneCause),
    /// The donor's disk failed.
    DiskFault,
    /// What was received is no command in turn. So much of it is kept.
    Garbled { kept: Kept },
    /// There was no memory.
    NoMemory,
}

/// What a step wants next.
#[derive(Drop)]
pub enum ServeTurn {
    /// The answer to this call.
    Ask(DonorCall),
    /// Nothing more.
    Done(ServeAnswer),
}
