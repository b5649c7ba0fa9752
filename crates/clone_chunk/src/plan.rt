ghost use Rattle.std.specs.Prelude.{◌≡◌, ◌≤◌, length};
ghost use Rattle.clone_base.specs.declared.limits.TheConstants.{SPACE_LIMIT};
ghost use Rattle.clone_chunk.specs.Plans.{stage_of, chunks_of, checkpoint_of, lsn_of, position_of};
ghost use Rattle.clone_chunk.specs.Plans.{spaces_of};

use crate::{SpaceSize, Spaces, Stage};

/// What a donor says of the stage that it is in. The numbers that a stage doesn't have aren't
/// there.
#[derive(Drop)]
pub enum StagePlan {
    /// The files of all spaces are copied.
    FileCopy {
        /// How many chunks there are.
        chunks: u32,
        /// The spaces, as they were when the session opened.
        spaces: Spaces,
    },
    /// The pages that were changed during the copy of files are copied.
    PageCopy {
        /// How many chunks there are.
        chunks: u32,
        /// How many pages are copied.
        position: u64,
        /// The spaces that were created since the session opened.
        spaces: Spaces,
    },
    /// The redo is copied.
    RedoCopy {
        /// How many chunks there are.
        chunks: u32,
        /// Where the redo begins.
        checkpoint: u64,
        /// Where it ends.
        lsn: u64,
        /// How many commits there are up to that end.
        position: u64,
    },
    /// Nothing is left to copy.
    Done {
        /// Where the redo began.
        checkpoint: u64,
        /// Where it ended.
        lsn: u64,
        /// How many commits there are up to that end.
        position: u64,
    },
}

impl StagePlan {
    /// The stage that this is of.
    pub fn stage(&self) -> Stage
        ensures { result ≡ stage_of self.now }
    {
        match self {
            StagePlan::FileCopy { .. } => Stage::FileCopy,
            StagePlan::PageCopy { .. } => Stage::PageCopy,
            StagePlan::RedoCopy { .. } => Stage::RedoCopy,
            StagePlan::Done { .. } => Stage::Done,
        }
    }

    /// The number of chunks, which is 0 where nothing is left to copy.
    pub fn chunks(&self) -> u32
        ensures { result ≡ chunks_of self.now }
    {
        match self {
            StagePlan::FileCopy { chunks, .. }
            | StagePlan::PageCopy { chunks, .. }
            | StagePlan::RedoCopy { chunks, .. } => *chunks,
            StagePlan::Done { .. } => 0,
        }
    }

    /// Where the redo begins, or 0 where the stage doesn't tell it.
    pub fn checkpoint(&self) -> u64
        ensures { result ≡ checkpoint_of self.now }
    {
        match self {
            StagePlan::RedoCopy { checkpoint, .. } | StagePlan::Done { checkpoint, .. } => {
                *checkpoint
            }
            StagePlan::FileCopy { .. } | StagePlan::PageCopy { .. } => 0,
        }
    }

    /// Where the redo ends, or 0 where the stage doesn't tell it.
    pub fn lsn(&self) -> u64
        ensures { result ≡ lsn_of self.now }
    {
        match self {
            StagePlan::RedoCopy { lsn, .. } | StagePlan::Done { lsn, .. } => *lsn,
            StagePlan::FileCopy { .. } | StagePlan::PageCopy { .. } => 0,
        }
    }

    /// The number of commits up to that LSN, or in the copy of pages that of its pages, or 0.
    pub fn position(&self) -> u64
        ensures { result ≡ position_of self.now }
    {
        match self {
            StagePlan::PageCopy { position, .. }
            | StagePlan::RedoCopy { position, .. }
            | StagePlan::Done { position, .. } => *position,
            StagePlan::FileCopy { .. } => 0,
        }
    }

    /// The spaces: in the copy of files all, in the copy of pages those that were created since the
    /// session opened, and none later.
    pub fn spaces(&self) -> &[SpaceSize]
        ensures value { result.now ≡ spaces_of self.now }
        ensures few { length result.now ≤ SPACE_LIMIT }
    {
        match self {
            StagePlan::FileCopy { spaces, .. } | StagePlan::PageCopy { spaces, .. } => {
                spaces.as_slice()
            }
            StagePlan::RedoCopy { .. } | StagePlan::Done { .. } => &[],
        }
    }
}
