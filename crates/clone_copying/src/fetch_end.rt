ghost use Rattle.std.specs.Prelude.{◌≡◌};
ghost use Rattle.clone_copying.specs.Fetching.{refused_as};

use clone_fetching::CloneEnded;
use clone_outside::Refusal;

/// How a fetch ended.
#[derive(Drop)]
pub enum FetchEnd {
    /// The clone has ended so.
    Ended(CloneEnded),
    /// The net made no connection, and its count of faults rose.
    NetFault,
    /// The run was halted.
    Halted,
    /// There was no memory.
    NoMemory,
}

impl FetchEnd {
    /// Of a task that got no connection.
    pub(crate) fn refused(cause: Refusal) -> FetchEnd
        ensures { result ≡ refused_as cause }
    {
        match cause {
            Refusal::Fault => FetchEnd::NetFault,
            Refusal::NoMemory => FetchEnd::NoMemory,
        }
    }
}
