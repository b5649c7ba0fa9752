use clone_outside::Refusal;
use clone_recipient::{BeginCause, TakeRefusal};
use std::alloc::AllocError;

/// Why a test couldn't go on.
#[derive(Debug, Drop)]
pub(crate) struct Stuck;

impl From<AllocError> for Stuck {
    fn from(_: AllocError) -> Stuck {
        Stuck
    }
}

impl From<Refusal> for Stuck {
    fn from(_: Refusal) -> Stuck {
        Stuck
    }
}

impl From<BeginCause> for Stuck {
    fn from(_: BeginCause) -> Stuck {
        Stuck
    }
}

impl From<TakeRefusal> for Stuck {
    fn from(_: TakeRefusal) -> Stuck {
        Stuck
    }
}
