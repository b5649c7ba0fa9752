/// The ring has too little room.
#[derive(Clone, Copy, Debug, PartialEq, Eq)]
pub struct LogFull {
    /// How many bytes were to be appended.
    pub need: u64,
    /// How many bytes may be appended.
    pub free: u64,
}
