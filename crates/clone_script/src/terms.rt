/// The version that the two ends of a clone speak where nothing else is said.
pub const USUAL_VERSION: u16 = 1;

/// How many tasks copy a clone where nothing else is said.
pub const USUAL_TASKS: u8 = 1;

/// How many losses a clone is let off where nothing else is said.
pub const USUAL_LIMIT: u32 = 16;

/// How a clone is taken.
#[derive(Clone, Copy, Debug, PartialEq, Eq)]
pub struct Terms {
    /// The version that its two ends speak: 1 or 2.
    pub version: u16,
    /// How many tasks copy it: from 1 to 16.
    pub tasks: u8,
    /// How many losses it is let off: at most 100.
    pub limit: u32,
}
