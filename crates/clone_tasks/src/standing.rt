ghost use Rattle.std.specs.Prelude.{◌≡◌};
ghost use Rattle.clone_tasks.specs.Tables.{is_apart, is_ready, awaits, awaits_end, renewed};
ghost use Rattle.clone_tasks.specs.Tables.{is_done};

use clone_chunk::CopyStage;

/// How far a recipient has come.
#[derive(Clone, Copy)]
pub enum Phase {
    /// No STAGE was ever taken.
    Opening,
    /// A stage is copied.
    Copying {
        /// The stage.
        stage: CopyStage,
    },
    /// All stages were copied.
    Done,
}

impl Phase {
    pub(crate) fn is_done(self) -> bool
        ensures { result ≡ is_done self }
    {
        matches!(self, Phase::Done)
    }
}

/// Where a task stands in the present incarnation.
#[derive(Clone, Copy)]
pub enum Standing {
    /// It has no connection.
    Apart,
    /// Its first command, INIT, ATTACH, REINIT or REINIT2, awaits a STAGE.
    Joining,
    /// It awaits nothing, and may ask for blocks.
    Ready,
    /// An EXECUTE awaits blocks and their END.
    Fetching,
    /// It has taken END in this stage, and awaits nothing.
    Served,
    /// An ACK awaits the STAGE of the next stage.
    Acknowledging,
}

impl Standing {
    pub(crate) fn is_apart(self) -> bool
        ensures { result ≡ is_apart self }
    {
        matches!(self, Standing::Apart)
    }

    pub(crate) fn is_ready(self) -> bool
        ensures { result ≡ is_ready self }
    {
        matches!(self, Standing::Ready)
    }

    /// Whether a command awaits its answer.
    pub fn awaits(self) -> bool
        ensures { result ≡ awaits self }
    {
        matches!(
            self,
            Standing::Joining | Standing::Fetching | Standing::Acknowledging
        )
    }

    /// Whether an EXECUTE awaits blocks and their END.
    pub fn awaits_end(self) -> bool
        ensures { result ≡ awaits_end self }
    {
        matches!(self, Standing::Fetching)
    }

    // Where the task stands once the recipient has come to the next stage.
    pub(crate) fn renewed(self) -> Standing
        ensures { result ≡ renewed self }
    {
        match self {
            Standing::Served => Standing::Ready,
            other => other,
        }
    }
}
