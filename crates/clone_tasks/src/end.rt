use clone_chunk::CloneCause;
use clone_stream::Kept;

/// How a clone ended.
#[derive(Drop)]
pub enum CloneEnd {
    /// All was copied, and the complete mark was written and synced.
    Complete {
        /// The LSN of the clone.
        lsn: u64,
        /// How many commits the clone has.
        position: u64,
    },
    /// There were more losses than the limit.
    Spent {
        /// How many.
        losses: u32,
    },
    /// The donor sent bytes that begin no frame, or a frame that no task awaits.
    Garbled {
        /// The first of the bytes.
        kept: Kept,
    },
    /// The donor refused a command.
    Refused {
        /// Why.
        cause: CloneCause,
    },
    /// The recipient's disk failed.
    DiskFault,
}

/// What a loss leads to.
#[derive(Clone, Copy, PartialEq, Eq)]
pub enum LossAnswer {
    /// The tasks connect again.
    Again {
        /// How many losses there were.
        losses: u32,
    },
    /// There were more losses than the limit, and the clone has ended.
    Spent {
        /// How many.
        losses: u32,
    },
    /// The loss is of another incarnation than the present one, and isn't counted.
    Old,
}
