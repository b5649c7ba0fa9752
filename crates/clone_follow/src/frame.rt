//! The frames of a follower and its donor, and their lengths.
ghost use Rattle.std.specs.Prelude.{◌≡◌, length};
ghost use Rattle.clone_follow.specs.Spelling.{code_of};

use crate::SentCommit;

/// A frame. Each is in its ranges by its types.
#[derive(Debug, Drop)]
pub enum FollowFrame {
    /// The follower has the commits up to this position and wants the next one.
    Want { position: u64 },
    /// The commit at this position of the donor's binlog, the first of which has position 1.
    Commit { position: u64, commit: SentCommit },
    /// The donor has no further commit than that at this position.
    Current { position: u64 },
}

impl FollowFrame {
    /// The frame's code.
    pub fn code(&self) -> u8
        ensures { result ≡ code_of self.now }
    {
        match self {
            FollowFrame::Want { .. } => 32,
            FollowFrame::Commit { .. } => 33,
            FollowFrame::Current { .. } => 34,
        }
    }
}
