ghost use Rattle.std.specs.Prelude.{◌≡◌};
ghost use Rattle.clone_progress.specs.Copies.{file_copy, page_copy, redo_copy};

/// Where a clone stands.
#[derive(Clone, Copy)]
pub enum CloneStatus {
    /// It wasn't begun.
    NotStarted,
    /// It goes on.
    InProgress,
    /// It ended and isn't complete.
    Failed,
    /// It is complete.
    Completed {
        /// The LSN of the clone.
        lsn: u64,
        /// How many commits the clone has.
        position: u64,
    },
}

/// How far the copy is: the chunks of the stage in which something is copied, and how many chunks
/// the stages before it had.
#[derive(Clone, Copy)]
pub enum Copied {
    /// No stage was begun.
    Nothing,
    /// The files are copied.
    Files {
        /// How many chunks are finished.
        finished: u32,
        /// How many chunks there are.
        chunks: u32,
    },
    /// The pages are copied, and the files were.
    Pages {
        /// How many chunks the files had.
        files: u32,
        /// How many chunks are finished.
        finished: u32,
        /// How many chunks there are.
        chunks: u32,
    },
    /// The redo is copied, and files and pages were.
    Redo {
        /// How many chunks the files had.
        files: u32,
        /// How many chunks the pages had.
        pages: u32,
        /// How many chunks are finished.
        finished: u32,
        /// How many chunks there are.
        chunks: u32,
    },
    /// All was copied.
    All {
        /// How many chunks the files had.
        files: u32,
        /// How many chunks the pages had.
        pages: u32,
        /// How many chunks the redo had.
        redo: u32,
    },
}

/// Where a stage stands in which something is copied.
#[derive(Clone, Copy)]
pub enum CopyState {
    /// It wasn't begun.
    NotStarted,
    /// It goes on.
    InProgress {
        /// How many chunks are finished.
        finished: u32,
        /// How many chunks there are.
        chunks: u32,
    },
    /// Each of its chunks is finished, and the next stage was begun.
    Completed {
        /// How many chunks there are.
        chunks: u32,
    },
}

impl Copied {
    /// Where the copy of files stands.
    pub fn file_copy(self) -> CopyState
        ensures { result ≡ file_copy self }
    {
        match self {
            Copied::Nothing => CopyState::NotStarted,
            Copied::Files { finished, chunks } => CopyState::InProgress { finished, chunks },
            Copied::Pages { files, .. } | Copied::Redo { files, .. } | Copied::All { files, .. } =>
                { CopyState::Completed { chunks: files } }
        }
    }

    /// Where the copy of pages stands.
    pub fn page_copy(self) -> CopyState
        ensures { result ≡ page_copy self }
    {
        match self {
            Copied::Nothing | Copied::Files { .. } => CopyState::NotStarted,
            Copied::Pages {
                finished,
                chunks,
                ..
            } => CopyState::InProgress { finished, chunks },
            Copied::Redo { pages, .. } | Copied::All { pages, .. } => {
                CopyState::Completed { chunks: pages }
            }
        }
    }

    /// Where the copy of redo stands.
    pub fn redo_copy(self) -> CopyState
        ensures { result ≡ redo_copy self }
    {
        match self {
            Copied::Nothing | Copied::Files { .. } | Copied::Pages { .. } => CopyState::NotStarted,
            Copied::Redo {
                finished,
                chunks,
                ..
            } => CopyState::InProgress { finished, chunks },
            Copied::All { redo, .. } => CopyState::Completed { chunks: redo },
        }
    }
}

/// How far a clone is.
#[derive(Clone, Copy)]
pub struct Progress {
    /// Where the clone stands.
    pub status: CloneStatus,
    /// How far the copy is.
    pub copied: Copied,
    /// All was copied, and the complete mark was written and synced.
    pub synced: bool,
    /// The recipient's disk was recovered.
    pub recovered: bool,
}
