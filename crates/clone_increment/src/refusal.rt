use clone_outside::Refusal;
use std::alloc::{AllocError, AllocFailed};

/// Why no copy was made, or why none was applied. All is as before then.
#[derive(Clone, Copy, Debug, PartialEq, Eq)]
pub enum BackupRefusal {
    /// B1: so many pages are being written.
    OpenWrites { count: u32 },
    /// B2: no full copy was made.
    NoFull,
    /// B3: the increment isn't the next one.
    OutOfTurn { have: u32, got: u32 },
    /// The disk failed, and its count of faults rose.
    DiskFault,
    /// There was no memory.
    NoMemory,
}

impl From<Refusal> for BackupRefusal {
    ghost use Rattle.std.specs.Prelude.{◌≡◌};
    ghost use Rattle.clone_increment.specs.Refusals.{refused};

    ghost from_gives = { λ from why. why ≡ refused from };

    fn from(refusal: Refusal) -> BackupRefusal {
        match refusal {
            Refusal::Fault => BackupRefusal::DiskFault,
            Refusal::NoMemory => BackupRefusal::NoMemory,
        }
    }
}

impl From<AllocError> for BackupRefusal {
    ghost use Rattle.std.specs.Prelude.{◌≡◌};
    ghost use Rattle.clone_increment.specs.declared.refusal.BackupRefusal.TheVariants.{NoMemory};

    ghost from_gives = { λ _ why. why ≡ NoMemory };

    fn from(_: AllocError) -> BackupRefusal {
        BackupRefusal::NoMemory
    }
}

impl<T: Drop> From<AllocFailed<T>> for BackupRefusal {
    ghost use Rattle.std.specs.Prelude.{◌≡◌};
    ghost use Rattle.clone_increment.specs.declared.refusal.BackupRefusal.TheVariants.{NoMemory};

    ghost from_gives = { λ _ why. why ≡ NoMemory };

    fn from(_: AllocFailed<T>) -> BackupRefusal {
        BackupRefusal::NoMemory
    }
}
