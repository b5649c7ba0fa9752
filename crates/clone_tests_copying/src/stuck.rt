use clone_outside::Refusal;
use clone_recipient::BeginCause;
use std::alloc::{AllocError, AllocFailed};

/// Why a test couldn't go on.
#[derive(Debug, Drop)]
pub(crate) struct Stuck;

impl From<AllocError> for Stuck {
    fn from(_: AllocError) -> Stuck {
        Stuck
    }
}

impl From<Refusal> for Stuck {
    fn from(_: Refusal) -> Stuck {
        Stuck
    }
}

impl From<BeginCause> for Stuck {
    fn from(_: BeginCause) -> Stuck {
        Stuck
    }
}

impl<T: Drop> From<AllocFailed<T>> for Stuck {
    fn from(_: AllocFailed<T>) -> Stuck {
        Stuck
    }
}
