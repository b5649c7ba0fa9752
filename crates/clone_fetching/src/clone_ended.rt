//! How a clone ended, as each task that asks for it is told.
ghost use Rattle.std.specs.Prelude.{◌≡◌, IfOk};
ghost use Rattle.clone_fetching.specs.Recipients.{HasFloor, end_told};

use clone_chunk::CloneCause;
use clone_tasks::CloneEnd;
use std::alloc::{AllocError, Global};

/// How a clone ended. Each task has a copy of its own of the bytes that were kept.
#[derive(Drop)]
pub enum CloneEnded {
    /// All was copied, and the complete mark was written and synced.
    Complete {
        /// The LSN of the clone.
        lsn: u64,
        /// How many commits the clone has.
        position: u64,
        /// The position that was looked up before the first acknowledgement of PAGE COPY.
        floor: u64,
    },
    /// There were more losses than the limit.
    Spent {
        /// How many.
        losses: u32,
    },
    /// The donor sent bytes that begin no frame, or a frame that no task awaits.
    Garbled {
        /// The first of the bytes.
        kept: Vec<u8>,
    },
    /// The donor refused a command.
    Refused {
        /// Why.
        cause: CloneCause,
    },
    /// The recipient's disk failed.
    DiskFault,
}

impl CloneEnded {
    // What is told of an end, with the floor of the first acknowledgement of PAGE COPY.
    pub(crate) fn of(alloc: Global, end: &CloneEnd, floor: u64) -> Result<CloneEnded, AllocError>
        ensures end { IfOk result (λ told. end_told told ≡ end.now) }
        ensures floor { IfOk result (HasFloor floor) }
    {
        Ok(match end {
            CloneEnd::Complete { lsn, position } => CloneEnded::Complete {
                lsn: *lsn,
                position: *position,
                floor,
            },
            CloneEnd::Spent { losses } => CloneEnded::Spent { losses: *losses },
            CloneEnd::Garbled { kept } => CloneEnded::Garbled {
                kept: Vec::from_slice(alloc, kept.as_slice())?,
            },
            CloneEnd::Refused { cause } => CloneEnded::Refused { cause: *cause },
            CloneEnd::DiskFault => CloneEnded::DiskFault,
        })
    }
}
