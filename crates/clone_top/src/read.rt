ghost use Rattle.std.specs.Prelude.{◌≡◌, ◌≤◌, ◌<◌, ◌+◌, List, ℕ, OnOk, IfOk, IsErrOf, length};
ghost use Rattle.clone_outside.specs.Bytes.{prepended, IsSpent};
ghost use Rattle.clone_outside.specs.Causes.{Rose};
ghost use Rattle.clone_outside.specs.declared.Refusal.TheVariants.{NoMemory};
ghost use Rattle.clone_script.specs.declared.read.TheConstants.{LONGEST_SCRIPT};
ghost use Rattle.clone_top.specs.Stops.{stop_of, StopsAtFailure, TookAtMost};

use clone_outside::{Refusal, Source};
use clone_script::LONGEST_SCRIPT;
use std::alloc::{AllocError, Global};

/// How many bytes of the source are asked for at once.
const PIECE: usize = 4_096;

/// Why a script was not read.
#[derive(Clone, Copy, Debug, PartialEq, Eq)]
pub enum ReadStop {
    /// There was no memory.
    Memory,
    /// The source failed.
    Fault,
    /// The source gave more bytes than a script may have.
    TooLong,
}

impl From<Refusal> for ReadStop {
    ghost from_gives = { λ refusal stop. stop ≡ stop_of refusal };

    fn from(refusal: Refusal) -> ReadStop {
        match refusal {
            Refusal::Fault => ReadStop::Fault,
            Refusal::NoMemory => ReadStop::Memory,
        }
    }
}

impl From<AllocError> for ReadStop {
    ghost from_gives = { λ _ stop. stop ≡ stop_of NoMemory };

    fn from(_: AllocError) -> ReadStop {
        ReadStop::Memory
    }
}

/// Reads the source to its end, or until it gave one byte more than a script may have, and takes no
/// more of it than that. The first read that fails is the last: where the answer is a script or
/// `TooLong`, the source's count of faults is as before.
pub fn read_all<S: Source>(alloc: Global, source: &mut S) -> Result<Vec<u8>, ReadStop>
    ensures gave { IfOk result (λ script. S.left source.old
        ≡ prepended script.items (S.left source.new)) }
    ensures spent { OnOk result (IsSpent (S.left source.new)) }
    ensures short { IfOk result (λ script. length script.items ≤ LONGEST_SCRIPT) }
    ensures fault { IsErrOf result ReadStop.Fault
        → Rose (S.failures source.old) (S.failures source.new) }
    ensures long { IsErrOf result ReadStop.TooLong → (script : List ℕ)
        × (S.left source.old ≡ prepended script (S.left source.new))
        × (LONGEST_SCRIPT < length script) }
    ensures last { StopsAtFailure S.left S.failures source.old source.new }
    ensures later { S.failures source.old ≤ S.failures source.new }
    ensures most { TookAtMost (LONGEST_SCRIPT + 1) (S.left source.old) (S.left source.new) }
    ensures steady { OnOk result (S.failures source.new ≡ S.failures source.old) }
    ensures steady_long { IsErrOf result ReadStop.TooLong
        → S.failures source.new ≡ S.failures source.old }
{
    let mut script = Vec::new(alloc);
    let mut piece = [0; PIECE];
    while script.len() <= LONGEST_SCRIPT {
        let most = (LONGEST_SCRIPT + 1 - script.len()).min(PIECE);
        let count = source.read(&mut piece[..most])?;
        if count == 0 {
            return Ok(script);
        }
        script.extend_from_slice(&piece[..count])?;
    }
    Err(ReadStop::TooLong)
}
