ghost use Rattle.std.specs.Prelude.{◌≡◌, IfSome, IfNone, ◌⊎◌, ◌<◌};
ghost use Rattle.clone_page.specs.Kinds.{kind_number};

/// What a page in use is for.
#[derive(Clone, Copy, Debug, PartialEq, Eq)]
pub enum PageKind {
    /// The first page of the system space.
    System,
    /// A page of undo records.
    Undo,
    /// The first page of a chain of rows.
    Bucket,
    /// A later page of a chain of rows.
    Overflow,
}

impl PageKind {
    /// The number that stands in the page's header, from 1 to 4.
    pub fn number(self) -> u16
        ensures { result ≡ kind_number self }
    {
        match self {
            PageKind::System => 1,
            PageKind::Undo => 2,
            PageKind::Bucket => 3,
            PageKind::Overflow => 4,
        }
    }

    /// The kind of this number, or none where no kind has it.
    pub fn from_number(number: u16) -> Option<PageKind>
        ensures some { IfSome result (λ kind. kind_number kind ≡ number) }
        ensures none { IfNone result ((number ≡ 0) ⊎ (4 < number)) }
    {
        match number {
            1 => Some(PageKind::System),
            2 => Some(PageKind::Undo),
            3 => Some(PageKind::Bucket),
            4 => Some(PageKind::Overflow),
            _ => None,
        }
    }
}
