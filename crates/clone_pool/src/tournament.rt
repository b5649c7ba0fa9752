//! Ranks in a tournament, which has the first of them at its top.
//!
//! With n frames there are 2n nodes, of which node 0 is unused. Node n + i has the rank of frame i,
//! and each node between has the winner of nodes 2j and 2j + 1. So the top, node 1, has the first
//! rank of all, and a rank that changes is carried up by at most as many matches as 2n has binary
//! digits.
ghost use Rattle.std.specs.Prelude.{true, nat_lt, ◌≡◌, ◌<◌, ◌≤◌, ℕ, length, replicate, slice_set, drop, ◌*◌, IfOk, IfNone, IfSome};
ghost use Rattle.clone_pool.specs.Tournament.{IsFirst, HasNoRank, AreMatchedBut, rank_at, is_before, name_is_before, first_of};

use crate::PageName;
use std::alloc::{AllocError, Global};
use std::marker::Model;

/// The number of a rank that takes no part.
pub const NO_NUMBER: u64 = 0xFFFF_FFFF_FFFF_FFFF;

/// What a tournament compares: a number, and a page for those that have the same number.
#[derive(Clone, Copy, Debug)]
pub struct Rank {
    pub number: u64,
    pub name: PageName,
}

impl Rank {
    /// Whether a frame of this rank takes part.
    pub fn takes_part(self) -> bool
        ensures { result ≡ nat_lt self.number NO_NUMBER }
    {
        self.number < NO_NUMBER
    }
}

/// The rank of a frame that takes no part.
pub const NO_RANK: Rank = Rank {
    number: NO_NUMBER,
    name: NO_NAME,
};

/// The name in a rank of a frame without a page.
pub const NO_NAME: PageName = PageName {
    space: 0,
    number: 0,
};

/// Ranks by their frame numbers.
#[derive(Drop)]
pub struct Tournament {
    nodes: Vec<Rank>,
    count: usize,
}

impl Model for Tournament {
    ghost use Rattle.std.specs.Prelude.{List, ℕ, drop};
    ghost use Rattle.clone_pool.specs.Tournament.{IsTournament};
    ghost use Rattle.clone_pool.specs.declared.tournament.Rank.{Rank};

    ghost Value = { List Rank };

    ghost view = { λ t. drop t.count t.nodes.items };

    ghost invariant = { λ t. IsTournament t.count t.nodes.items };
}

impl Tournament {
    /// So many frames, each with this rank. No later call takes memory.
    pub fn new(alloc: Global, count: u32, rank: Rank) -> Result<Tournament, AllocError>
        ensures { IfOk result (λ t. t ≡ replicate count rank) }
    {
        let count = count as usize;
        let mut nodes = Vec::with_capacity(alloc, 2 * count)?;
        for _ in 0..2 * count {
            nodes.push(rank)?;
        }
        Ok(Tournament { nodes, count })
    }

    /// Gives a frame this rank.
    pub fn set(&mut self, frame_number: usize, rank: Rank)
        requires { frame_number < length self.old }
        ensures { self.new ≡ slice_set self.old frame_number rank }
    {
        if is_same(self.nodes[self.count + frame_number], rank) {
            return;
        }
        self.nodes[self.count + frame_number] = rank;
        rematch(&mut self.nodes, self.count, (self.count + frame_number) / 2);
    }

    /// The number of a frame that goes before the others, or none exactly where no frame takes
    /// part.
    pub fn first(&self) -> Option<usize>
        ensures none { IfNone result (HasNoRank self.now) }
        ensures some { IfSome result (IsFirst self.now) }
    {
        if self.count == 0 {
            return None;
        }
        let top = self.nodes[1];
        if top.number == NO_NUMBER {
            return None;
        }
        Some(leaf_below(&self.nodes, self.count) - self.count)
    }
}

// Plays the matches from a node towards the top again, until one ends as before.
fn rematch(nodes: &mut Vec<Rank>, count: usize, from: usize)
    requires long { length nodes.old.items ≡ 2 * count }
    requires from { from < count }
    requires others { AreMatchedBut from count nodes.old.items }
    ensures matched { AreMatchedBut 0 count nodes.new.items }
    ensures long { length nodes.new.items ≡ 2 * count }
    ensures leaves { drop count nodes.new.items ≡ drop count nodes.old.items }
{
    let mut node = from;
    while 0 < node {
        let first = first_of(nodes[2 * node], nodes[2 * node + 1]);
        if is_same(nodes[node], first) {
            return;
        }
        nodes[node] = first;
        node /= 2;
    }
}

// A leaf with the rank of the top.
fn leaf_below(nodes: &[Rank], count: usize) -> usize
    requires long { length nodes.now ≡ 2 * count }
    requires some { 0 < count }
    requires matched { AreMatchedBut 0 count nodes.now }
    ensures low { count ≤ result }
    ensures high { result < 2 * count }
    ensures key { rank_at nodes.now result ≡ rank_at nodes.now 1 }
{
    let mut node = 1;
    while node < count {
        let left = 2 * node;
        node = if is_before(nodes[left + 1], nodes[left]) {
            left + 1
        } else {
            left
        };
    }
    node
}

// The winner of a match.
fn first_of(a: Rank, b: Rank) -> Rank
    ensures { result ≡ first_of a b }
{
    if is_before(b, a) { b } else { a }
}

// Whether two are one rank.
pub(crate) fn is_same(a: Rank, b: Rank) -> bool
    ensures { result ≡ true → a ≡ b }
{
    a.number == b.number && b.name.is(a.name)
}

// The lesser number goes first, and of two with one number the lesser space, and then the lesser
// page.
pub(crate) fn is_before(a: Rank, b: Rank) -> bool
    ensures { result ≡ is_before a b }
{
    if a.number == b.number {
        name_is_before(a.name, b.name)
    } else {
        a.number < b.number
    }
}

fn name_is_before(a: PageName, b: PageName) -> bool
    ensures { result ≡ name_is_before a b }
{
    if a.space == b.space {
        a.number < b.number
    } else {
        a.space < b.space
    }
}
