use clone_chunk::StagePlan;

/// The stage that a session has come to, as the donor tells it.
#[derive(Drop)]
pub struct StageInfo {
    /// The session's number.
    pub session: u64,
    /// The incarnation that the donor keeps.
    pub incarnation: u32,
    /// The stage, and what is copied in it.
    pub plan: StagePlan,
}

/// A stop: how many commits and drops of tables there were.
#[derive(Clone, Copy, Debug, PartialEq, Eq)]
pub struct Stop {
    /// The session that it is of.
    pub session: u64,
    /// How many commits.
    pub position: u64,
    /// How many drops.
    pub drops: u64,
}
