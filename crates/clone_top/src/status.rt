ghost use Rattle.std.specs.Prelude.{◌≡◌};
ghost use Rattle.clone_top.specs.Status.{number_of, status_by, status_of};

use clone_core::Ending;
use clone_outside::Refusal;

/// How a run ended.
#[derive(Clone, Copy, Debug, PartialEq, Eq)]
pub enum Status {
    /// All was done that was asked for.
    Done,
    /// There was no memory.
    Memory,
    /// The words are no command line.
    Usage,
    /// A line of the script is outside the grammar.
    BadLine,
    /// The source failed.
    SourceFault,
    /// A sink failed.
    SinkFault,
    /// The donor's disk failed before the first line.
    DonorFault,
    /// The recipient's disk failed before the first line, ended the clone, or came in the way of
    /// its rows.
    RecipientFault,
    /// There were more losses than the limit, which ended the clone.
    RestartsSpent,
    /// The recipient got bytes that are no frame, or out of turn, which ended the clone.
    Garbled,
    /// The donor refused a command of the clone, which ended the clone.
    Refused,
    /// A disk held a space or a mark before the first line.
    NotEmpty,
    /// No thread could be started, or no connection was made.
    CrewFault,
    /// The recipient's disk has no mark, or that of a clone under way.
    Incomplete,
    /// A page of the recipient's disk, or its redo, is against the format.
    Damaged,
    /// The words ask for compressed pages, which there aren't.
    CompressionRefused,
    /// The script has more than 1,048,576 bytes.
    TooLong,
}

impl Status {
    /// The number that the program ends with.
    pub fn number(self) -> u8
        ensures { result ≡ number_of self }
    {
        match self {
            Status::Done => 0,
            Status::Memory => 1,
            Status::Usage => 2,
            Status::BadLine => 3,
            Status::SourceFault => 4,
            Status::SinkFault => 5,
            Status::DonorFault => 6,
            Status::RecipientFault => 7,
            Status::RestartsSpent => 8,
            Status::NotEmpty => 9,
            Status::Garbled => 10,
            Status::CrewFault => 11,
            Status::Incomplete => 12,
            Status::Damaged => 13,
            Status::CompressionRefused => 14,
            Status::TooLong => 15,
            Status::Refused => 16,
        }
    }
}

/// The status of a run that a refusal of a sink or of memory ended.
impl From<Refusal> for Status {
    ghost from_gives = { λ refusal status. status ≡ status_of refusal };

    fn from(refusal: Refusal) -> Status {
        match refusal {
            Refusal::Fault => Status::SinkFault,
            Refusal::NoMemory => Status::Memory,
        }
    }
}

/// The status of a run whose lines were all carried out.
impl From<Ending> for Status {
    ghost from_gives = { λ ending status. status ≡ status_by ending };

    fn from(ending: Ending) -> Status {
        match ending {
            Ending::Well => Status::Done,
            Ending::RecipientFault => Status::RecipientFault,
            Ending::RestartsSpent => Status::RestartsSpent,
            Ending::Garbled => Status::Garbled,
            Ending::Refused => Status::Refused,
        }
    }
}
