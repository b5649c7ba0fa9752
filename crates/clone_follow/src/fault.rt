ghost use Rattle.std.specs.Prelude.{◌≡◌};
ghost use Rattle.clone_follow.specs.declared.fault.Fault.TheVariants.{NoMemory, Short};

use std::alloc::{AllocError, AllocFailed};

/// Why no frame was read.
#[derive(Clone, Copy, Debug, PartialEq, Eq)]
pub enum FrameRefusal {
    /// Further bytes would make a frame. It is known to have so many bytes in all, or 5 at least
    /// where fewer than 5 are there.
    NotYet { need: usize },
    /// No further bytes would. The first field whose bytes begin nothing that a frame has there
    /// begins at this offset.
    Garbled { at: usize },
    /// There was no memory.
    NoMemory,
}

// Why reading from left to right stopped.
#[derive(Clone, Copy, Debug, PartialEq, Eq)]
pub(crate) enum Fault {
    // The bytes end.
    Short,
    // The bytes of the field that begins here begin nothing that may stand there.
    Garbled { at: usize },
    NoMemory,
}

impl From<clone_bytes::Short> for Fault {
    ghost from_gives = { λ _ fault. fault ≡ Short };

    fn from(_: clone_bytes::Short) -> Fault {
        Fault::Short
    }
}

impl From<AllocError> for Fault {
    ghost from_gives = { λ _ fault. fault ≡ NoMemory };

    fn from(_: AllocError) -> Fault {
        Fault::NoMemory
    }
}

impl<T: Drop> From<AllocFailed<T>> for Fault {
    ghost from_gives = { λ _ fault. fault ≡ NoMemory };

    fn from(_: AllocFailed<T>) -> Fault {
        Fault::NoMemory
    }
}
