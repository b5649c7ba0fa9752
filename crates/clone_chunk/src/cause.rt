//! Why a donor refuses a call of a clone. A script shows a cause as text, and a frame has its
//! number and two values of 8 bytes.
ghost use Rattle.std.specs.Prelude.{◌≡◌};
ghost use Rattle.clone_chunk.specs.Causes.{cause_number, cause_first, cause_second};
ghost use Rattle.clone_chunk.specs.Causes.{cause_numbered};

use std::fmt;

/// Why a call of a clone is refused, numbered 1 to 12, with the values that say more. Nothing has
/// changed then.
#[derive(Clone, Copy, Debug, PartialEq, Eq, Drop)]
pub enum CloneCause {
    /// C1: another session stands.
    Busy {
        /// Its number.
        session: u64,
    },
    /// C2: the donor doesn't speak this version.
    VersionMismatch {
        /// The requester's version.
        theirs: u64,
    },
    /// C3: the donor's pages have another size.
    PageSizeMismatch {
        /// The requester's size.
        theirs: u64,
    },
    /// C4: the donor doesn't compress.
    CompressionRefused,
    /// C5: there may not be so many tasks, or no task of this number.
    TasksOutOfRange {
        /// The number.
        tasks: u64,
    },
    /// C6: no session has this number.
    NoSuchSession,
    /// C7: the call is of an incarnation that is over, or begins none.
    Stale {
        /// The incarnation that the donor keeps.
        incarnation: u64,
    },
    /// C8: the donor is in another stage.
    StageMismatch {
        /// The number of the donor's stage.
        donor: u64,
        /// The number that was given.
        recipient: u64,
    },
    /// C9: the stage has chunks that aren't finished.
    ChunksLeft {
        /// How many.
        count: u64,
    },
    /// C10: the floor is above the donor's position.
    FloorAhead {
        /// The floor.
        floor: u64,
        /// How many commits there are.
        position: u64,
    },
    /// C11: the task hasn't claimed the chunk, or the chunk has no such block.
    NotClaimed,
    /// C12: the block ends after what is archived.
    ArchiveBehind {
        /// The LSN up to which the redo is archived.
        archived: u64,
        /// The LSN at which the block ends.
        until: u64,
    },
}

impl CloneCause {
    /// The cause's number, from 1 to 12.
    pub fn number(self) -> u8
        ensures { result ≡ cause_number self }
    {
        match self {
            CloneCause::Busy { .. } => 1,
            CloneCause::VersionMismatch { .. } => 2,
            CloneCause::PageSizeMismatch { .. } => 3,
            CloneCause::CompressionRefused => 4,
            CloneCause::TasksOutOfRange { .. } => 5,
            CloneCause::NoSuchSession => 6,
            CloneCause::Stale { .. } => 7,
            CloneCause::StageMismatch { .. } => 8,
            CloneCause::ChunksLeft { .. } => 9,
            CloneCause::FloorAhead { .. } => 10,
            CloneCause::NotClaimed => 11,
            CloneCause::ArchiveBehind { .. } => 12,
        }
    }

    /// The first value, or 0 where the cause has none.
    pub fn first(self) -> u64
        ensures { result ≡ cause_first self }
    {
        match self {
            CloneCause::Busy { session } => session,
            CloneCause::VersionMismatch { theirs } | CloneCause::PageSizeMismatch { theirs } => {
                theirs
            }
            CloneCause::TasksOutOfRange { tasks } => tasks,
            CloneCause::Stale { incarnation } => incarnation,
            CloneCause::StageMismatch { donor, .. } => donor,
            CloneCause::ChunksLeft { count } => count,
            CloneCause::FloorAhead { floor, .. } => floor,
            CloneCause::ArchiveBehind { archived, .. } => archived,
            CloneCause::CompressionRefused | CloneCause::NoSuchSession | CloneCause::NotClaimed =>
                0,
        }
    }

    /// The second value, or 0 where the cause has none.
    pub fn second(self) -> u64
        ensures { result ≡ cause_second self }
    {
        match self {
            CloneCause::StageMismatch { recipient, .. } => recipient,
            CloneCause::FloorAhead { position, .. } => position,
            CloneCause::ArchiveBehind { until, .. } => until,
            _ => 0,
        }
    }

    /// The cause that has this number, from 1 to 12, with its values. Other numbers are of none,
    /// and any answer does.
    pub fn numbered(number: u64, first: u64, second: u64) -> CloneCause
        ensures { result ≡ cause_numbered number first second }
    {
        match number {
            1 => CloneCause::Busy { session: first },
            2 => CloneCause::VersionMismatch { theirs: first },
            3 => CloneCause::PageSizeMismatch { theirs: first },
            4 => CloneCause::CompressionRefused,
            5 => CloneCause::TasksOutOfRange { tasks: first },
            6 => CloneCause::NoSuchSession,
            7 => CloneCause::Stale { incarnation: first },
            8 => CloneCause::StageMismatch {
                donor: first,
                recipient: second,
            },
            9 => CloneCause::ChunksLeft { count: first },
            10 => CloneCause::FloorAhead {
                floor: first,
                position: second,
            },
            11 => CloneCause::NotClaimed,
            _ => CloneCause::ArchiveBehind {
                archived: first,
                until: second,
            },
        }
    }
}

/// The answer of a script: `refused`, the number with its letter, and its values.
impl fmt::Display for CloneCause {
    ghost use Rattle.std.specs.Prelude.{Some};
    ghost use Rattle.clone_chunk.specs.CauseTexts.{cause_text};

    ghost output = { λ c. Some (cause_text c) };

    fn fmt<W: fmt::Write>(&self, f: &mut fmt::Formatter<W>) -> fmt::Result {
        match self {
            CloneCause::Busy { session } => write!(f, "refused C1 {session}"),
            CloneCause::VersionMismatch { theirs } => write!(f, "refused C2 {theirs}"),
            CloneCause::PageSizeMismatch { theirs } => write!(f, "refused C3 {theirs}"),
            CloneCause::CompressionRefused => f.write_str("refused C4"),
            CloneCause::TasksOutOfRange { tasks } => write!(f, "refused C5 {tasks}"),
            CloneCause::NoSuchSession => f.write_str("refused C6"),
            CloneCause::Stale { incarnation } => write!(f, "refused C7 {incarnation}"),
            CloneCause::StageMismatch { donor, recipient } => {
                write!(f, "refused C8 {donor} {recipient}")
            }
            CloneCause::ChunksLeft { count } => write!(f, "refused C9 {count}"),
            CloneCause::FloorAhead { floor, position } => {
                write!(f, "refused C10 {floor} {position}")
            }
            CloneCause::NotClaimed => f.write_str("refused C11"),
            CloneCause::ArchiveBehind { archived, until } => {
                write!(f, "refused C12 {archived} {until}")
            }
        }
    }
}
