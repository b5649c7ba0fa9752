/// Where a job is between two of its calls. Each number is that of the writer or of the task.
#[derive(Clone, Copy, Debug, PartialEq, Eq)]
pub enum Point {
    /// A writer after a call that was no commit, or a commit that was refused.
    Writer(u32),
    /// A writer after a commit.
    Commit(u32),
    /// The flusher after a call.
    Flusher,
    /// The checkpointer after a call.
    Checkpointer,
    /// The archiver after a call.
    Archiver,
    /// The donor's side of a task after a call that read no block.
    Serve(u8),
    /// The donor's side of a task after a block was read.
    Block(u8),
    /// The requester's side of a task after a call.
    Fetch(u8),
}

/// What each job passes after each of its calls. It answers nothing, so that no job's answers
/// depend on it; one for tests may hold who passes.
pub trait Gate {
    /// Passes the gate at this point.
    fn pass(&self, point: Point);
}

/// A gate that holds nobody.
#[derive(Clone, Copy, Debug, Drop)]
pub struct NoGate;

impl Gate for NoGate {
    fn pass(&self, _point: Point) {}
}
