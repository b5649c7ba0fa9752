/// Where a chunk stands.
#[derive(Clone, Copy, Debug, PartialEq, Eq)]
pub enum Chunk {
    /// No task has claimed it.
    Free,
    /// This task has claimed it.
    Claimed { task: u8 },
    /// Each of its blocks was copied.
    Finished,
}
