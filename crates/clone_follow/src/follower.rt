//! A follower keeps the rows that the commits up to its position leave of the rows with which it
//! was opened. It takes frames, and applies a commit where it is the next one.
ghost use Rattle.std.specs.Prelude.{◌≡◌, OnOk, OnErr, IfOk, Result};
ghost use Rattle.std.specs.FinMap as finite;
ghost use Rattle.clone_model.specs.History.{rows_in};
ghost use Rattle.clone_follow.specs.Following.{Takes, TakesCommit, current, with_rows};

use crate::FollowFrame;
use clone_model::{Commit, Tables, Value};
use std::alloc::{AllocError, Global};
use std::marker::Model;

/// What a follower did with a frame, and its position after that.
#[derive(Clone, Copy, Debug, PartialEq, Eq)]
pub enum FollowTook {
    /// The commit was the next one and was applied.
    Applied { position: u64 },
    /// The follower has the commit already.
    Ignored { position: u64 },
    /// The follower has all commits that the donor has.
    Current { position: u64 },
}

/// Why a follower didn't take a frame. It is as before then.
#[derive(Clone, Copy, Debug, PartialEq, Eq)]
pub enum FollowRefusal {
    /// F1: the commit isn't the next one but a later one, or the donor has more commits than the
    /// follower.
    Ahead { have: u64, got: u64 },
    /// F2: the donor has fewer commits than the follower.
    Behind { have: u64, got: u64 },
    /// F3: no follower is sent such a frame.
    Unexpected,
    /// There was no memory.
    NoMemory,
}

impl From<AllocError> for FollowRefusal {
    ghost use Rattle.std.specs.Prelude.{◌≡◌};
    ghost use Rattle.clone_follow.specs.declared.follower.FollowRefusal.TheVariants as refusal;

    ghost from_gives = { λ _ why. why ≡ refusal.NoMemory };

    fn from(_: AllocError) -> FollowRefusal {
        FollowRefusal::NoMemory
    }
}

/// A recipient that takes its donor's commits.
#[derive(Debug, Drop)]
pub struct Follower {
    rows: Tables,
    position: u64,
}

impl Model for Follower {
    ghost use Rattle.clone_follow.specs.Following.{Following, following_code};

    ghost Value = { Following };

    ghost coded = { following_code };

    ghost view = { λ f. record { rows = f.rows; position = f.position } };
}

impl Follower {
    /// A follower with these rows, which the commits up to this position left. Where a row is in
    /// the list more than once, the last counts.
    pub fn open(
        alloc: Global,
        rows: &[(u32, u64, Value)],
        position: u64,
    ) -> Result<Follower, AllocError>
        ensures rows { IfOk result (λ f. f.rows ≡ with_rows finite.empty rows.now) }
        ensures position { IfOk result (λ f. f.position ≡ position) }
    {
        let mut tables = Tables::new(alloc);
        for (table, key, value) in rows {
            tables.set(*table, *key, value.copied())?;
        }
        Ok(Follower {
            rows: tables,
            position,
        })
    }

    /// The position that a WANT of this follower has: that of the last commit in its rows.
    pub fn want(&self) -> u64
        ensures { result ≡ self.now.position }
    {
        self.position
    }

    /// Takes a frame. A commit costs what its changes do, whatever the number of rows, and no other
    /// frame takes memory.
    pub fn take(&mut self, frame: &FollowFrame) -> Result<FollowTook, FollowRefusal>
        ensures { Takes self.old frame.now result self.new }
    {
        match frame {
            FollowFrame::Want { .. } => Err(FollowRefusal::Unexpected),
            FollowFrame::Commit { position, commit } => {
                self.take_commit(*position, commit.as_commit())
            }
            FollowFrame::Current { position } => current(self.position, *position),
        }
    }

    fn take_commit(&mut self, got: u64, commit: &Commit) -> Result<FollowTook, FollowRefusal>
        ensures { TakesCommit self.old got commit.now result self.new }
    {
        let have = self.position;
        if got <= have {
            return Ok(FollowTook::Ignored { position: have });
        }
        if got - have > 1 {
            return Err(FollowRefusal::Ahead { have, got });
        }
        self.rows.apply(commit)?;
        self.position = got;
        Ok(FollowTook::Applied { position: got })
    }

    /// The rows in ascending order of table and key.
    pub fn rows(&self, alloc: Global) -> Result<Vec<(u32, u64, Value)>, AllocError>
        ensures { IfOk result (λ rows. rows.items ≡ rows_in self.now.rows) }
    {
        self.rows.rows(alloc)
    }
}

// What a follower at one position answers where the donor says that its last commit is at another.
fn current(have: u64, got: u64) -> Result<FollowTook, FollowRefusal>
    ensures { result ≡ current have got }
{
    if have < got {
        return Err(FollowRefusal::Ahead { have, got });
    }
    if got < have {
        return Err(FollowRefusal::Behind { have, got });
    }
    Ok(FollowTook::Current { position: have })
}
