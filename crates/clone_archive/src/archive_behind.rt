/// Bytes were to be read that the archive doesn't have yet.
#[derive(Clone, Copy, Debug, PartialEq, Eq)]
pub struct ArchiveBehind {
    /// The archived LSN.
    pub archived: u64,
    /// The LSN up to which the archive is needed.
    pub until: u64,
}
