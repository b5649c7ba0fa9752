use clone_outside::Refusal;
use clone_wire::Frame;
use std::alloc::AllocError;

/// Why a clone isn't begun.
#[derive(Clone, Copy, Debug, PartialEq, Eq)]
pub enum BeginCause {
    /// The disk holds a space or a mark.
    NotEmpty,
    /// The disk failed.
    DiskFault,
    /// There was no memory.
    NoMemory,
}

impl From<Refusal> for BeginCause {
    ghost use Rattle.std.specs.Prelude.{◌≡◌};
    ghost use Rattle.clone_recipient.specs.Refusals.{begin_cause};

    ghost from_gives = { λ refusal cause. cause ≡ begin_cause refusal };

    fn from(refusal: Refusal) -> BeginCause {
        match refusal {
            Refusal::Fault => BeginCause::DiskFault,
            Refusal::NoMemory => BeginCause::NoMemory,
        }
    }
}

impl From<AllocError> for BeginCause {
    ghost use Rattle.std.specs.Prelude.{◌≡◌};
    ghost use Rattle.clone_recipient.specs.declared.refusal.BeginCause.TheVariants.{NoMemory};

    ghost from_gives = { λ _ cause. cause ≡ NoMemory };

    fn from(_: AllocError) -> BeginCause {
        BeginCause::NoMemory
    }
}

/// Why a frame isn't taken.
#[derive(Drop)]
pub enum TakeRefusal {
    /// The task doesn't await this frame.
    Unexpected {
        /// The frame.
        frame: Frame,
    },
    /// The disk failed.
    DiskFault,
    /// There was no memory.
    NoMemory,
}

impl From<Refusal> for TakeRefusal {
    ghost use Rattle.std.specs.Prelude.{◌≡◌};
    ghost use Rattle.clone_recipient.specs.Refusals.{take_refusal};

    ghost from_gives = { λ refusal cause. cause ≡ take_refusal refusal };

    fn from(refusal: Refusal) -> TakeRefusal {
        match refusal {
            Refusal::Fault => TakeRefusal::DiskFault,
            Refusal::NoMemory => TakeRefusal::NoMemory,
        }
    }
}
