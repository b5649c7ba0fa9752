use std::alloc::AllocError;

/// Why a call of a flush is refused.
#[derive(Clone, Copy, Debug, PartialEq, Eq)]
pub enum FlushRefusal {
    /// The page isn't dirty.
    NotDirty,
    /// A flush of the page has begun, and has neither landed nor failed.
    InFlight,
    /// No flush of the page is at this half.
    NoFlush,
    /// The disk failed.
    DiskFault,
    /// There was no memory.
    NoMemory,
}

impl From<AllocError> for FlushRefusal {
    ghost use Rattle.std.specs.Prelude.{◌≡◌};
    ghost use Rattle.clone_flush.specs.declared.refusal.FlushRefusal.TheVariants as refusals;

    ghost from_gives = { λ _ refusal. refusal ≡ refusals.NoMemory };

    fn from(_: AllocError) -> FlushRefusal {
        FlushRefusal::NoMemory
    }
}
