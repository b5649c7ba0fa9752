ghost use Rattle.std.specs.Prelude.{◌≡◌, IfErr, IfOk};
ghost use Rattle.clone_model.specs.Config.{IsConfig};
ghost use Rattle.clone_script.specs.Given.{IsTerms};
ghost use Rattle.clone_top.specs.Looking.{IsUnread};
ghost use Rattle.clone_top.specs.Ends.{IsRead, end_of};
ghost use Rattle.clone_top.specs.Stops.{StopsAtFailure};

use crate::read::{ReadStop, read_all};
use clone_outside::Source;
use clone_script::{ReadRefusal, Script, read_script};
use std::alloc::Global;

/// Why no script is read.
#[derive(Clone, Copy, Debug, PartialEq, Eq)]
pub enum Unread {
    /// The source failed.
    SourceFault,
    /// The source gave more than a script may have.
    TooLong,
    /// The line of this number is the first outside the grammar.
    BadLine {
        /// Counted from 1.
        line: u64,
    },
    /// There was no memory.
    Memory,
}

/// Reads a script from the source.
pub fn read_source<S: Source>(alloc: Global, source: &mut S) -> Result<Script, Unread>
    ensures read { IfOk result (λ script. IsRead
        (end_of (S.left source.old) (S.failures source.old))
        (end_of (S.left source.new) (S.failures source.new))
        script.config script.terms script.lines.items) }
    ensures source { StopsAtFailure S.left S.failures source.old source.new }
    ensures config { IfOk result (λ script. IsConfig script.config) }
    ensures terms { IfOk result (λ script. IsTerms script.terms) }
    ensures unread { IfErr result (λ unread. IsUnread
        (end_of (S.left source.old) (S.failures source.old))
        (end_of (S.left source.new) (S.failures source.new)) unread) }
{
    let script = match read_all(alloc, source) {
        Ok(script) => script,
        Err(ReadStop::Memory) => return Err(Unread::Memory),
        Err(ReadStop::Fault) => return Err(Unread::SourceFault),
        Err(ReadStop::TooLong) => return Err(Unread::TooLong),
    };
    match read_script(alloc, &script) {
        Ok(script) => Ok(script),
        Err(ReadRefusal::NoMemory) => Err(Unread::Memory),
        Err(ReadRefusal::BadLine { line }) => Err(Unread::BadLine { line }),
    }
}
