ghost use Rattle.std.specs.Prelude.{◌≡◌};
ghost use Rattle.clone_overlay.specs.Images.{redo_space};
ghost use Rattle.clone_recover.specs.Refusals.{not_fetched};

use clone_base::REDO_SPACE;
use clone_outside::Refusal;
use clone_overlay::FetchRefusal;
use std::alloc::AllocError;

/// What on a disk is against the format.
#[derive(Clone, Copy, Debug, PartialEq, Eq)]
pub enum Why {
    /// The page's constants, number, space, kind or trailer.
    Header,
    /// The redo bytes are no log, or a record names the redo's space or one behind it.
    Redo,
    /// The dictionary names a space that isn't there.
    Dictionary,
    /// An undo slot in use has a count above 160, or an undo record has a field out of its range.
    Undo,
    /// A chain of a table leaves the table's space or comes back to one of its pages, or a bucket
    /// isn't there.
    Chain,
}

/// Why nothing was recovered or read.
#[derive(Clone, Copy, Debug, PartialEq, Eq)]
pub enum RecoverRefusal {
    /// The mark doesn't stand that the call needs.
    Incomplete,
    /// A page, or the redo from a page on, is against the format.
    Damaged { space: u32, page: u32, why: Why },
    /// The disk failed, and its count of faults rose.
    DiskFault,
    /// There was no memory.
    NoMemory,
}

impl From<AllocError> for RecoverRefusal {
    ghost use Rattle.std.specs.Prelude.{◌≡◌};
    ghost use Rattle.clone_recover.specs.declared.refusal.RecoverRefusal.TheVariants as refusals;

    ghost from_gives = { λ _ refusal. refusal ≡ refusals.NoMemory };

    fn from(_: AllocError) -> RecoverRefusal {
        RecoverRefusal::NoMemory
    }
}

impl From<Refusal> for RecoverRefusal {
    ghost use Rattle.std.specs.Prelude.{◌≡◌};
    ghost use Rattle.clone_recover.specs.Refusals.{refusal_of};

    ghost from_gives = { λ cause refusal. refusal ≡ refusal_of cause };

    fn from(cause: Refusal) -> RecoverRefusal {
        match cause {
            Refusal::Fault => RecoverRefusal::DiskFault,
            Refusal::NoMemory => RecoverRefusal::NoMemory,
        }
    }
}

/// The refusal for a page that wasn't fetched.
pub fn not_fetched(space: u32, page: u32, cause: FetchRefusal) -> RecoverRefusal
    ensures { result ≡ not_fetched space page cause }
{
    match cause {
        FetchRefusal::Header => RecoverRefusal::Damaged {
            space,
            page,
            why: Why::Header,
        },
        FetchRefusal::DiskFault => RecoverRefusal::DiskFault,
        FetchRefusal::NoMemory => RecoverRefusal::NoMemory,
    }
}

/// The refusal for a chain of a table, which is against the format on a page.
pub fn damaged_chain(table: u32, page: u32) -> RecoverRefusal
    ensures { result ≡ RecoverRefusal.Damaged table page Why.Chain }
{
    RecoverRefusal::Damaged {
        space: table,
        page,
        why: Why::Chain,
    }
}

/// The refusal for the redo from a page on.
pub fn damaged_redo(page: u32) -> RecoverRefusal
    ensures { result ≡ RecoverRefusal.Damaged redo_space page Why.Redo }
{
    RecoverRefusal::Damaged {
        space: REDO_SPACE,
        page,
        why: Why::Redo,
    }
}

/// The refusal for an undo slot or an undo record, which a page of the system space has.
pub fn damaged_undo(page: u32) -> RecoverRefusal
    ensures { result ≡ RecoverRefusal.Damaged 0 page Why.Undo }
{
    RecoverRefusal::Damaged {
        space: 0,
        page,
        why: Why::Undo,
    }
}
