ghost use Rattle.std.specs.Prelude.{◌≡◌};
ghost use Rattle.clone_jobs.specs.Turns.{stop_of};

use clone_plain::{Cause, EngineAnswer, EngineRefusal};

/// How a job ended.
#[derive(Clone, Copy, Debug, PartialEq, Eq)]
pub enum Ending {
    /// All that it had to do is done.
    Done,
    /// It was answered that the run is to end.
    Halted,
    /// It was answered that the donor's disk failed.
    DiskFault,
    /// There was no memory.
    NoMemory,
}

/// The end that an answer brings to a job, if it brings one.
pub(crate) fn stop_of(given: &Result<EngineAnswer, EngineRefusal>) -> Option<Ending>
    ensures { result ≡ stop_of given.now }
{
    match given {
        Ok(_) => None,
        Err(EngineRefusal::Because(Cause::DiskFault)) => Some(Ending::DiskFault),
        Err(EngineRefusal::Because(_)) => None,
        Err(EngineRefusal::NoMemory) => Some(Ending::NoMemory),
    }
}
