use clone_recipient::Took;
use clone_tasks::CloneEnd;

/// What came of a task's step.
#[derive(Drop)]
pub enum TaskAnswer {
    /// Nothing is to be done now.
    Idle,
    /// A frame was put out.
    Sent {
        /// Its code.
        code: u8,
    },
    /// A frame was taken.
    Took(Took),
    /// The connection is lost, and the tasks connect again.
    Lost {
        /// How many losses there were.
        losses: u32,
    },
    /// The connection was made in an earlier incarnation, and is to be closed.
    Stale,
    /// The clone has ended so.
    Ended(CloneEnd),
    /// There was no memory.
    NoMemory,
}
