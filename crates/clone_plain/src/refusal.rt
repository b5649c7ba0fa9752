use std::alloc::AllocError;
use std::fmt;

/// Why a call of the donor is refused. After a refusal nothing has changed, but for a drop in which
/// the disk failed: it may have taken place.
#[derive(Clone, Copy, Debug, PartialEq, Eq, Drop)]
pub enum Cause {
    /// E1: no open transaction has this number.
    NoSuchTrx,
    /// E2: no table has this number.
    NoSuchTable,
    /// E3: a table has it.
    TableExists,
    /// E4: another open transaction holds the row's lock.
    RowLocked {
        /// The transaction that holds it.
        holder: u32,
    },
    /// E5: the value has more than 64 bytes.
    ValueTooLong,
    /// E6: the transaction has 160 changes.
    UndoFull,
    /// E7: the row's bucket has no slot for its key and no free one.
    SpaceFull,
    /// E8: the log has no room for the mini-transaction.
    LogFull {
        /// How many bytes the mini-transaction has.
        need: u64,
        /// How many bytes are free.
        free: u64,
    },
    /// E9: a page has to be fetched, and each frame is pinned or dirty.
    PoolFull {
        /// How many frames there are.
        frames: u32,
    },
    /// E10: 64 transactions are open.
    TooManyTransactions,
    /// E11: 62 tables are there.
    TooManyTables,
    /// E12: a session of a clone stands, so no table is dropped.
    CloneRunning {
        /// Its number.
        session: u64,
    },
    /// E13: an open transaction holds the lock of a row of the table.
    TableInUse {
        /// The least transaction that does.
        trx: u32,
    },
    /// E14: the page isn't dirty.
    NotDirty,
    /// E15: a flush of the page, or of one of the table, has begun, and has neither landed nor
    /// failed.
    InFlight,
    /// E16: no flush of the page is at this half.
    NoFlush,
    /// E17: the disk failed.
    DiskFault,
}

/// The answer of a script: `refused`, the number with its letter, and its values.
impl fmt::Display for Cause {
    ghost use Rattle.std.specs.Prelude.{Some};
    ghost use Rattle.clone_plain.specs.Answers.{refusal_text};

    ghost output = { λ c. Some (refusal_text c) };

    fn fmt<W: fmt::Write>(&self, f: &mut fmt::Formatter<W>) -> fmt::Result {
        match self {
            Cause::NoSuchTrx => f.write_str("refused E1"),
            Cause::NoSuchTable => f.write_str("refused E2"),
            Cause::TableExists => f.write_str("refused E3"),
            Cause::RowLocked { holder } => write!(f, "refused E4 {holder}"),
            Cause::ValueTooLong => f.write_str("refused E5"),
            Cause::UndoFull => f.write_str("refused E6"),
            Cause::SpaceFull => f.write_str("refused E7"),
            Cause::LogFull { need, free } => write!(f, "refused E8 {need} {free}"),
            Cause::PoolFull { frames } => write!(f, "refused E9 {frames}"),
            Cause::TooManyTransactions => f.write_str("refused E10"),
            Cause::TooManyTables => f.write_str("refused E11"),
            Cause::CloneRunning { session } => write!(f, "refused E12 {session}"),
            Cause::TableInUse { trx } => write!(f, "refused E13 {trx}"),
            Cause::NotDirty => f.write_str("refused E14"),
            Cause::InFlight => f.write_str("refused E15"),
            Cause::NoFlush => f.write_str("refused E16"),
            Cause::DiskFault => f.write_str("refused E17"),
        }
    }
}

/// Why a call of the donor has no answer: a cause that stands, or that memory ran out, which may
/// happen at any call.
#[derive(Clone, Copy, Debug, PartialEq, Eq, Drop)]
pub enum EngineRefusal {
    /// There is a cause.
    Because(Cause),
    /// There was no memory.
    NoMemory,
}

impl From<AllocError> for EngineRefusal {
    ghost use Rattle.std.specs.Prelude.{◌≡◌};
    ghost use Rattle.clone_plain.specs.declared.refusal.EngineRefusal.TheVariants.{NoMemory};

    ghost from_gives = { λ _ e. e ≡ NoMemory };

    fn from(_refused: AllocError) -> EngineRefusal {
        EngineRefusal::NoMemory
    }
}

impl From<Cause> for EngineRefusal {
    ghost use Rattle.std.specs.Prelude.{◌≡◌};
    ghost use Rattle.clone_plain.specs.declared.refusal.EngineRefusal.TheVariants.{Because};

    ghost from_gives = { λ c e. e ≡ Because c };

    fn from(cause: Cause) -> EngineRefusal {
        EngineRefusal::Because(cause)
    }
}

/// What taking back does.
#[derive(Clone, Copy, Debug, PartialEq, Eq, Drop)]
pub enum Undone {
    /// The last change was taken back, and so many are left.
    Left(u16),
    /// There was no change, and the transaction ended without a commit.
    Ended,
}
