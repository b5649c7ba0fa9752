use clone_chunk::CloneCause;
use std::alloc::AllocError;

/// Why a call of a clone has no answer: there is a cause against it, or there was no memory.
#[derive(Clone, Copy, Debug, PartialEq, Eq, Drop)]
pub enum CloneRefusal {
    /// There is a cause.
    Because(CloneCause),
    /// There was no memory.
    NoMemory,
}

impl From<AllocError> for CloneRefusal {
    ghost use Rattle.std.specs.Prelude.{◌≡◌};
    ghost use Rattle.clone_session.specs.declared.refusal.CloneRefusal.TheVariants.{NoMemory};

    ghost from_gives = { λ _ e. e ≡ NoMemory };

    fn from(_refused: AllocError) -> CloneRefusal {
        CloneRefusal::NoMemory
    }
}

impl From<CloneCause> for CloneRefusal {
    ghost use Rattle.std.specs.Prelude.{◌≡◌};
    ghost use Rattle.clone_session.specs.declared.refusal.CloneRefusal.TheVariants.{Because};

    ghost from_gives = { λ c e. e ≡ Because c };

    fn from(cause: CloneCause) -> CloneRefusal {
        CloneRefusal::Because(cause)
    }
}
