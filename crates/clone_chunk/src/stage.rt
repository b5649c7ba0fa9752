ghost use Rattle.std.specs.Prelude.{◌≡◌, ◌↔◌, Some};
ghost use Rattle.clone_chunk.specs.Stages.{stage_number};

/// The stages of a clone, numbered 1 to 4.
#[derive(Clone, Copy, Debug, PartialEq, Eq)]
pub enum Stage {
    /// The files of all spaces are copied.
    FileCopy,
    /// The pages that were changed during the copy of files are copied.
    PageCopy,
    /// The redo is copied.
    RedoCopy,
    /// Nothing is left to copy.
    Done,
}

impl Stage {
    /// The stage's number, from 1 to 4.
    pub fn number(self) -> u8
        ensures { result ≡ stage_number self }
    {
        match self {
            Stage::FileCopy => 1,
            Stage::PageCopy => 2,
            Stage::RedoCopy => 3,
            Stage::Done => 4,
        }
    }

    /// The stage that has this number. None comes exactly where the number isn't one from 1 to 4.
    pub fn of_number(number: u8) -> Option<Stage>
        ensures { (stage : Stage) → (result ≡ Some stage) ↔ (number ≡ stage_number stage) }
    {
        match number {
            1 => Some(Stage::FileCopy),
            2 => Some(Stage::PageCopy),
            3 => Some(Stage::RedoCopy),
            4 => Some(Stage::Done),
            _ => None,
        }
    }
}
