//! The frames of the wire and their lengths. A frame has its code in 1 byte, the length of its
//! payload in 4, and the payload; a requester's codes are 1 to 7, a donor's 16 to 20. Each value
//! of this type is within the ranges of its fields, by the types of those.
use crate::PageStage;
use crate::limits::{
    HEAD_BYTES, PAGE_AT_BYTES, PAGES_FIELDS, PARTIAL_BYTES, REDO_FIELDS, REINIT_FIELDS,
    REINIT2_FIELDS, SPACE_BYTES, STAGE_FIELDS,
};
use clone_chunk::{Bitmap, CloneCause, CopyStage, RedoBytes, StagePlan, TakenBlocks};
use clone_page::Pages;

/// One attempt at a clone: a session, and which of its incarnations, since each loss begins
/// another.
#[derive(Clone, Copy, Debug, PartialEq, Eq)]
pub struct Attempt {
    pub session: u64,
    pub incarnation: u32,
}

/// Who sends a frame.
#[derive(Clone, Copy, Debug, PartialEq, Eq)]
pub enum Side {
    /// The requester.
    Command,
    /// The donor.
    Answer,
}

/// A frame. Each is in its ranges by its types.
#[derive(Drop)]
pub enum Frame {
    /// The requester opens a session. The donor tests version, page size and the number of tasks.
    Init {
        attempt: Attempt,
        version: u16,
        page_size: u32,
        compressed: bool,
        tasks: u8,
    },
    /// A further task of the session connects.
    Attach {
        attempt: Attempt,
        task: u8,
    },
    /// The requester comes back after a loss, with the chunks of its stage that are finished.
    Reinit {
        attempt: Attempt,
        stage: CopyStage,
        finished: Bitmap,
    },
    /// The requester comes back so to a session of version 2, and has blocks of other chunks too.
    Reinit2 {
        attempt: Attempt,
        stage: CopyStage,
        taken: TakenBlocks,
    },
    /// A task asks for blocks.
    Execute {
        stage: CopyStage,
    },
    /// The requester has all of a stage. The floor is the position that it had looked up before.
    Ack {
        stage: CopyStage,
        floor: u64,
    },
    /// The requester has left.
    Exit,
    /// The donor's stage.
    Stage {
        attempt: Attempt,
        plan: StagePlan,
    },
    /// A block of pages.
    Pages {
        attempt: Attempt,
        stage: PageStage,
        chunk: u32,
        block: u8,
        pages: Pages,
    },
    /// A block of redo, from this LSN on.
    Redo {
        attempt: Attempt,
        chunk: u32,
        block: u8,
        from: u64,
        bytes: RedoBytes,
    },
    /// No chunk is free for the task.
    End {
        attempt: Attempt,
        stage: CopyStage,
    },
    /// The donor refuses, and closes the connection.
    Refused {
        cause: CloneCause,
    },
}

impl Frame {
    ghost use Rattle.std.specs.Prelude.{◌≡◌};
    ghost use Rattle.clone_wire.specs.Spelling.{side_of, code_of};

    /// Who sends such a frame.
    pub fn side(&self) -> Side
        ensures { result ≡ side_of self.now }
    {
        match self {
            Frame::Init { .. }
            | Frame::Attach { .. }
            | Frame::Reinit { .. }
            | Frame::Reinit2 { .. }
            | Frame::Execute { .. }
            | Frame::Ack { .. }
            | Frame::Exit => Side::Command,
            Frame::Stage { .. }
            | Frame::Pages { .. }
            | Frame::Redo { .. }
            | Frame::End { .. }
            | Frame::Refused { .. } => Side::Answer,
        }
    }

    /// The frame's code.
    pub fn code(&self) -> u8
        ensures { result ≡ code_of self.now }
    {
        match self {
            Frame::Init { .. } => 1,
            Frame::Attach { .. } => 2,
            Frame::Reinit { .. } => 3,
            Frame::Execute { .. } => 4,
            Frame::Ack { .. } => 5,
            Frame::Exit => 6,
            Frame::Reinit2 { .. } => 7,
            Frame::Stage { .. } => 16,
            Frame::Pages { .. } => 17,
            Frame::Redo { .. } => 18,
            Frame::End { .. } => 19,
            Frame::Refused { .. } => 20,
        }
    }

    // Room for the spelling, so that it needn't grow.
    pub(crate) fn room(&self) -> usize {
        match self {
            Frame::Pages { pages, .. } => HEAD_BYTES
                + PAGES_FIELDS
                + PAGE_AT_BYTES * pages.as_slice().len(),
            Frame::Redo { bytes, .. } => HEAD_BYTES + REDO_FIELDS + bytes.as_slice().len(),
            Frame::Reinit { finished, .. } => HEAD_BYTES + REINIT_FIELDS + finished.bytes().len(),
            Frame::Reinit2 { taken, .. } => HEAD_BYTES
                + REINIT2_FIELDS
                + taken.finished().bytes().len()
                + PARTIAL_BYTES * taken.partials().as_slice().len(),
            Frame::Stage { plan, .. } => HEAD_BYTES
                + STAGE_FIELDS
                + SPACE_BYTES * plan.spaces().len(),
            _ => 25,
        }
    }
}
