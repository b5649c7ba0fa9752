//! A commit that a frame carries. It has at most as many changes as a transaction may have.
ghost use Rattle.std.specs.Prelude.{◌≡◌, ◌≤◌, ◌<◌, length, IfSome, IfNone};
ghost use Rattle.clone_base.specs.declared.limits.TheConstants.{CHANGE_LIMIT};

use clone_base::CHANGE_LIMIT;
use clone_model::Commit;
use std::marker::Model;

/// A commit of at most 160 changes.
#[derive(Debug, Drop)]
pub struct SentCommit {
    commit: Commit,
}

impl Model for SentCommit {
    ghost use Rattle.std.specs.Prelude.{length, ◌≤◌};
    ghost use Rattle.clone_base.specs.declared.limits.TheConstants.{CHANGE_LIMIT};
    ghost use Rattle.clone_model.specs.declared.change.Commit.{Commit};

    ghost Value = { Commit };

    ghost view = { λ s. s.commit };

    ghost invariant = { λ s. length s.commit.changes ≤ CHANGE_LIMIT };
}

impl SentCommit {
    /// The commit, or none where it has more than 160 changes.
    pub fn new(commit: Commit) -> Option<SentCommit>
        ensures value { IfSome result (λ sent. sent ≡ commit) }
        ensures none { IfNone result (CHANGE_LIMIT < length commit.changes) }
    {
        if commit.changes.len() > CHANGE_LIMIT {
            return None;
        }
        Some(SentCommit { commit })
    }

    /// The commit.
    pub fn as_commit(&self) -> &Commit
        ensures value { result.now ≡ self.now }
        ensures few { length self.now.changes ≤ CHANGE_LIMIT }
    {
        &self.commit
    }
}
