ghost use Rattle.std.specs.Prelude.{◌≡◌};
ghost use Rattle.clone_tasks.specs.Rules.{is_absent};

use clone_chunk::CopyStage;

/// The state of a task's connection.
#[derive(Clone, Copy)]
pub enum Link {
    /// There is none.
    Absent,
    /// Bytes come and go.
    Up,
    /// It is lost.
    Lost,
}

impl Link {
    pub(crate) fn is_absent(self) -> bool
        ensures { result ≡ is_absent self }
    {
        matches!(self, Link::Absent)
    }
}

/// The rule by which a task acts next.
#[derive(Clone, Copy, PartialEq, Eq)]
pub enum Rule {
    /// Nothing is to be done.
    Nothing,
    /// The task's connection was made in an earlier incarnation.
    Stale,
    /// The task connects, and sends its first command.
    Connect,
    /// A command awaits its answer.
    Receive,
    /// All was copied: the clone is completed, and EXIT is sent.
    Complete,
    /// Each chunk of the stage is finished: ACK is sent.
    Acknowledge {
        /// The stage.
        stage: CopyStage,
    },
    /// Blocks are asked for: EXECUTE is sent.
    Execute {
        /// The stage.
        stage: CopyStage,
    },
}
