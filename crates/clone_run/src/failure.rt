ghost use Rattle.std.specs.Prelude.{◌≡◌};
ghost use Rattle.clone_run.specs.Outcomes.{first_of, of_clone, of_ending, of_fetch, of_start, of_writing, rank};

use clone_chunk::CloneCause;
use clone_copying::FetchEnd;
use clone_fetching::CloneEnded;
use clone_jobs::Ending;
use clone_outside::Refusal;

/// Why a clone under load failed. Where several causes are met, the one that is first here counts.
#[derive(Drop)]
pub enum Failure {
    /// There was no memory.
    Memory,
    /// No thread could be started.
    Thread,
    /// No connection was made.
    Connection,
    /// The donor's disk failed.
    DonorDisk,
    /// The recipient's disk failed.
    RecipientDisk,
    /// The recipient got bytes that begin no frame, or a frame that no task awaits.
    Garbled {
        /// The first of the bytes.
        kept: Vec<u8>,
    },
    /// The donor refused a command.
    Refused {
        /// Why.
        cause: CloneCause,
    },
    /// There were more losses than the limit.
    Spent {
        /// How many.
        losses: u32,
    },
    /// The recipient's disk holds a space or a mark.
    NotEmpty,
    /// A writer or a task ended since the run was halted. Whoever halts a run before it is done has
    /// met another cause, which goes before this one.
    Halted,
}

impl Failure {
    /// Where it is in the order of causes.
    fn rank(&self) -> u8
        ensures { result ≡ rank self.now }
    {
        match self {
            Failure::Memory => 0,
            Failure::Thread | Failure::Connection => 1,
            Failure::DonorDisk => 2,
            Failure::RecipientDisk => 3,
            Failure::Garbled { .. } => 4,
            Failure::Refused { .. } => 5,
            Failure::Spent { .. } => 6,
            Failure::NotEmpty => 7,
            Failure::Halted => 8,
        }
    }

    /// Of a job that wasn't started.
    pub(crate) fn of_start(refusal: Refusal) -> Failure
        ensures { result ≡ of_start refusal }
    {
        match refusal {
            Refusal::Fault => Failure::Thread,
            Refusal::NoMemory => Failure::Memory,
        }
    }

    /// That with which a job ended that goes on until the run is halted, if it ended with one.
    pub(crate) fn of_ending(ending: Ending) -> Option<Failure>
        ensures { result ≡ of_ending ending }
    {
        match ending {
            Ending::Done | Ending::Halted => None,
            Ending::DiskFault => Some(Failure::DonorDisk),
            Ending::NoMemory => Some(Failure::Memory),
        }
    }

    /// That with which a writer ended before its last commit, if it did.
    pub(crate) fn of_writing(ending: Ending) -> Option<Failure>
        ensures { result ≡ of_writing ending }
    {
        match ending {
            Ending::Done => None,
            Ending::Halted => Some(Failure::Halted),
            Ending::DiskFault => Some(Failure::DonorDisk),
            Ending::NoMemory => Some(Failure::Memory),
        }
    }

    /// That with which a task ended before the clone was complete, if it did.
    pub(crate) fn of_fetch(end: FetchEnd) -> Option<Failure>
        ensures { result ≡ of_fetch end }
    {
        match end {
            FetchEnd::Ended(how) => Failure::of_clone(how),
            FetchEnd::NetFault => Some(Failure::Connection),
            FetchEnd::Halted => Some(Failure::Halted),
            FetchEnd::NoMemory => Some(Failure::Memory),
        }
    }

    fn of_clone(how: CloneEnded) -> Option<Failure>
        ensures { result ≡ of_clone how }
    {
        match how {
            CloneEnded::Complete { .. } => None,
            CloneEnded::Spent { losses } => Some(Failure::Spent { losses }),
            CloneEnded::Garbled { kept } => Some(Failure::Garbled { kept }),
            CloneEnded::Refused { cause } => Some(Failure::Refused { cause }),
            CloneEnded::DiskFault => Some(Failure::RecipientDisk),
        }
    }

    /// The one that counts of two.
    pub(crate) fn first_of(one: Option<Failure>, other: Option<Failure>) -> Option<Failure>
        ensures { result ≡ first_of one other }
    {
        match (one, other) {
            (Some(one), Some(other)) => {
                if other.rank() < one.rank() {
                    Some(other)
                } else {
                    Some(one)
                }
            }
            (Some(one), None) => Some(one),
            (None, other) => other,
        }
    }
}
