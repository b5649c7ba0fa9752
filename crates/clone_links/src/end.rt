ghost use Rattle.std.specs.Prelude.{◌≡◌, IfNone};
ghost use Rattle.clone_serve.specs.Stepping.{IsCarriedOut};
ghost use Rattle.clone_links.specs.Ending.{end_after};

use clone_chunk::CloneCause;
use clone_serve::ServeAnswer;
use clone_stream::Kept;

/// How the serving of a connection ended.
#[derive(Drop)]
pub enum ServeEnd {
    /// The requester has left.
    Exit,
    /// The connection is lost.
    Lost,
    /// The donor refused, and the refusal was sent.
    Refused(CloneCause),
    /// What was received is no command in turn. So much of it is kept.
    Garbled { kept: Kept },
    /// The donor's disk failed.
    DiskFault,
    /// The run is to end.
    Halted,
    /// There was no memory.
    NoMemory,
}

impl ServeEnd {
    /// The end that a step brings, if it brings one.
    pub(crate) fn after(says: ServeAnswer) -> Option<ServeEnd>
        ensures ends { result ≡ end_after says }
        ensures goes_on { IfNone result (IsCarriedOut says) }
    {
        match says {
            ServeAnswer::Exit => Some(ServeEnd::Exit),
            ServeAnswer::Refused(why) => Some(ServeEnd::Refused(why)),
            ServeAnswer::Garbled { kept } => Some(ServeEnd::Garbled { kept }),
            ServeAnswer::DiskFault => Some(ServeEnd::DiskFault),
            ServeAnswer::NoMemory => Some(ServeEnd::NoMemory),
            _ => None,
        }
    }
}
