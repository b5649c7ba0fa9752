ghost use Rattle.std.specs.Prelude.{◌≡◌};
ghost use Rattle.clone_chunk.specs.Stages.{copy_number, copy_numbered, copying};

use crate::Stage;

/// The stages in which something is copied, numbered 1 to 3.
#[derive(Clone, Copy, Debug, PartialEq, Eq)]
pub enum CopyStage {
    /// The files of all spaces are copied.
    FileCopy,
    /// The pages that were changed during the copy of files are copied.
    PageCopy,
    /// The redo is copied.
    RedoCopy,
}

impl CopyStage {
    /// The stage's number, from 1 to 3.
    pub fn number(self) -> u8
        ensures { result ≡ copy_number self }
    {
        match self {
            CopyStage::FileCopy => 1,
            CopyStage::PageCopy => 2,
            CopyStage::RedoCopy => 3,
        }
    }

    /// The stage that has this number, from 1 to 3. Other numbers are of none, and any answer does.
    pub fn numbered(number: u64) -> CopyStage
        ensures { result ≡ copy_numbered number }
    {
        match number {
            1 => CopyStage::FileCopy,
            2 => CopyStage::PageCopy,
            _ => CopyStage::RedoCopy,
        }
    }

    /// The same stage among all of a clone.
    pub fn stage(self) -> Stage
        ensures { result ≡ copying self }
    {
        match self {
            CopyStage::FileCopy => Stage::FileCopy,
            CopyStage::PageCopy => Stage::PageCopy,
            CopyStage::RedoCopy => Stage::RedoCopy,
        }
    }
}
