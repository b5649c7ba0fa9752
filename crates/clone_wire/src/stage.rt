ghost use Rattle.std.specs.Prelude.{◌≡◌};
ghost use Rattle.clone_wire.specs.Stages.{page_number, page_numbered};

/// The stages in which pages are copied, numbered 1 and 2.
#[derive(Clone, Copy, Debug, PartialEq, Eq)]
pub enum PageStage {
    FileCopy,
    PageCopy,
}

impl PageStage {
    /// The stage's number, 1 or 2.
    pub fn number(self) -> u8
        ensures { result ≡ page_number self }
    {
        match self {
            PageStage::FileCopy => 1,
            PageStage::PageCopy => 2,
        }
    }

    pub(crate) fn numbered(number: u64) -> PageStage
        ensures { result ≡ page_numbered number }
    {
        match number {
            1 => PageStage::FileCopy,
            _ => PageStage::PageCopy,
        }
    }
}
