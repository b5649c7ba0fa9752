//! Frames in a row, in the order of their ranks.
//!
//! The row has the number of each frame that takes part once, and no frame behind one that it goes
//! before. `ranks` has the rank of each frame, by its number. The row has room for each frame.
ghost use Rattle.std.specs.Prelude.{ℕ, ◌≡◌, ◌<◌, ◌≤◌, false, true, IfOk, IfNone, IfSome, length, replicate, slice_set};
ghost use Rattle.clone_pool.specs.Frames.{frame_at, is_waiting};
ghost use Rattle.clone_pool.specs.Tournament.{IsFirst, HasNoRank, no_rank, rank_at, is_before};
ghost use Rattle.clone_pool.specs.Row.{IsRow, IsBetween, IsFirstWaiting, TakesPart, frame_in};

use crate::Frame;
use crate::tournament::{NO_NUMBER, NO_RANK, Rank, is_before, is_same};
use std::alloc::{AllocError, Global};
use std::collections::VecDeque;
use std::marker::Model;

/// Ranks by their frame numbers.
#[derive(Drop)]
pub struct Row {
    ranks: Vec<Rank>,
    row: VecDeque<u32>,
}

impl Model for Row {
    ghost use Rattle.std.specs.Prelude.{List, length, ◌≤◌};
    ghost use Rattle.std.specs.VecDeque.{deque_capacity};
    ghost use Rattle.clone_pool.specs.declared.tournament.Rank.{Rank};
    ghost use Rattle.clone_pool.specs.Row.{IsRow, HasRoom};

    ghost Value = { List Rank };

    ghost view = { λ r. r.ranks.items };

    ghost invariant = { λ r. IsRow r.ranks.items r.row.items
        × HasRoom r.ranks.items (deque_capacity r.row) };
}

impl Row {
    /// So many frames that take no part. No later call takes memory.
    pub fn new(alloc: Global, count: u32) -> Result<Row, AllocError>
        ensures { IfOk result (λ r. r ≡ replicate count no_rank) }
    {
        let mut ranks = Vec::with_capacity(alloc, count as usize)?;
        for _ in 0..count {
            ranks.push(NO_RANK)?;
        }
        let row = VecDeque::with_capacity(alloc, count as usize)?;
        Ok(Row { ranks, row })
    }

    /// Gives a frame this rank.
    pub fn set(&mut self, at: usize, rank: Rank)
        requires { at < length self.old }
        ensures { self.new ≡ slice_set self.old at rank }
    {
        if is_same(self.ranks[at], rank) {
            return;
        }
        self.leave(at);
        self.join(at, rank);
    }

    /// The number of a frame that goes before the others, or none exactly where no frame takes
    /// part.
    pub fn first(&self) -> Option<usize>
        ensures none { IfNone result (HasNoRank self.now) }
        ensures some { IfSome result (IsFirst self.now) }
    {
        if self.row.is_empty() {
            return None;
        }
        Some(self.row[0] as usize)
    }

    /// The number of the frame that goes before the others that wait for their flush, or none
    /// where no frame that takes part does.
    pub fn first_waiting(&self, frames: &[Frame]) -> Option<usize>
        requires { length self.now ≡ length frames.now }
        ensures none { IfNone result ((at : ℕ) → TakesPart self.now at
            → is_waiting (frame_at frames.now at) ≡ false) }
        ensures some { IfSome result (IsFirstWaiting self.now frames.now) }
    {
        let mut place = 0;
        while place < self.row.len() {
            let at = self.row[place] as usize;
            if frames[at].is_waiting() {
                return Some(at);
            }
            place += 1;
        }
        None
    }

    // A frame takes no part any more.
    fn leave(&mut self, at: usize)
        requires { at < length self.old }
        ensures { self.new ≡ slice_set self.old at no_rank }
    {
        if !self.ranks[at].takes_part() {
            self.ranks[at] = NO_RANK;
            return;
        }
        let place = place_of(&self.row, at);
        let _ = self.row.remove(place);
        self.ranks[at] = NO_RANK;
    }

    // A frame that takes no part gets this rank.
    fn join(&mut self, at: usize, rank: Rank)
        requires at { at < length self.old }
        requires out { NO_NUMBER ≤ (rank_at self.old at).number }
        ensures { self.new ≡ slice_set self.old at rank }
    {
        if !rank.takes_part() {
            self.ranks[at] = rank;
            return;
        }
        let place = place_for(&self.ranks, &self.row, rank);
        // there is room for each frame
        let _ = self.row.insert(place, at as u32);
        self.ranks[at] = rank;
    }
}

// The place of a frame that is in the row.
fn place_of(row: &VecDeque<u32>, at: usize) -> usize
    requires { (i : ℕ) × (i < length row.now.items) × (frame_in row.now.items i ≡ at) }
    ensures within { result < length row.now.items }
    ensures there { frame_in row.now.items result ≡ at }
{
    let mut place = 0;
    while place + 1 < row.len() && row[place] as usize != at {
        place += 1;
    }
    place
}

// Where a rank goes into the row, found from its end.
fn place_for(ranks: &[Rank], row: &VecDeque<u32>, rank: Rank) -> usize
    requires { IsRow ranks.now row.now.items }
    ensures { IsBetween ranks.now row.now.items rank result }
{
    let mut place = row.len();
    while 0 < place && is_before(rank, ranks[row[place - 1] as usize]) {
        place -= 1;
    }
    place
}
