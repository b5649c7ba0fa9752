ghost use Rattle.std.specs.Prelude.{◌≡◌, IfOk};
ghost use Rattle.clone_model.specs.Config.{IsConfig};
ghost use Rattle.clone_script.specs.Given.{IsTerms};
ghost use Rattle.clone_script.specs.Reading.{Reads};
ghost use Rattle.clone_script.specs.declared.read.ReadRefusal.TheVariants.{NoMemory};

use crate::draft::Draft;
use crate::split::first_text;
use crate::{Line, Terms};
use clone_model::Config;
use std::alloc::{AllocError, AllocFailed, Global};

/// How many bytes a script may have.
pub const LONGEST_SCRIPT: usize = 1_048_576;

/// What a script gives.
#[derive(Debug, Drop)]
pub struct Script {
    /// How large the donor's pool and its ring are.
    pub config: Config,
    /// How the clone is taken.
    pub terms: Terms,
    /// The lines, in order.
    pub lines: Vec<Line>,
}

/// Why a script can't be read.
#[derive(Clone, Copy, Debug, PartialEq, Eq)]
pub enum ReadRefusal {
    /// The line of this number, counted from 1, is the first outside the grammar.
    BadLine { line: u64 },
    /// There was no memory.
    NoMemory,
}

impl From<AllocError> for ReadRefusal {
    ghost from_gives = { λ _ e. e ≡ NoMemory };

    fn from(_: AllocError) -> ReadRefusal {
        ReadRefusal::NoMemory
    }
}

impl<T: Drop> From<AllocFailed<T>> for ReadRefusal {
    ghost from_gives = { λ _ e. e ≡ NoMemory };

    fn from(_: AllocFailed<T>) -> ReadRefusal {
        ReadRefusal::NoMemory
    }
}

/// Reads a script. `BadLine` has the number of the first text that is neither passed over, nor a
/// head line that may stand there, nor the text of a line. The texts that are passed over count,
/// too.
pub fn read_script(alloc: Global, bytes: &[u8]) -> Result<Script, ReadRefusal>
    ensures read { Reads bytes.now result }
    ensures sizes { IfOk result (λ script. IsConfig script.config) }
    ensures terms { IfOk result (λ script. IsTerms script.terms) }
{
    let mut draft = Draft::new(alloc);
    let mut rest = bytes;
    let mut number = 0;
    while !rest.is_empty() {
        let (text, behind) = first_text(rest);
        number += 1;
        rest = behind;
        if !draft.take(alloc, text)? {
            return Err(ReadRefusal::BadLine { line: number });
        }
    }
    Ok(draft.finish())
}
