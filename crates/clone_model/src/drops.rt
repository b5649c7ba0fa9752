ghost use Rattle.std.specs.Prelude.{◌≡◌, ◌↔◌, ◌++◌, ◌∷◌, ◌<◌, ◌≤◌, ◌+◌, [], IsTrue, OnOk, OnErr, length};

use std::alloc::{AllocError, Global};
use std::marker::Model;

/// The tables that were dropped, in their order, with room for more of them. Each drop is the
/// number of commits before it, and the table.
#[derive(Debug, Drop)]
pub struct Drops {
    list: Vec<(u64, u32)>,
}

impl Model for Drops {
    ghost use Rattle.std.specs.Prelude.{◌-◌, vec_len, vec_capacity};
    ghost use Rattle.clone_model.specs.Drops.{DropsState};

    ghost Value = { DropsState };

    ghost view = { λ d. record {
      list = d.list.items;
      room = vec_capacity d.list - vec_len d.list;
    } };
}

impl Drops {
    /// No drops. This takes no memory.
    pub fn new(alloc: Global) -> Drops
        ensures { result.list ≡ [] }
    {
        Drops {
            list: Vec::new(alloc),
        }
    }

    /// Adds a drop behind the others: of this table, behind so many commits. There is room for it,
    /// so this takes no memory.
    pub fn push_within(&mut self, position: u64, table: u32)
        requires room { 0 < self.old.room }
        ensures drops { self.new.list ≡ self.old.list ++ (position, table) ∷ [] }
        ensures left { self.old.room ≤ self.new.room + 1 }
    {
        match self.list.push((position, table)) {
            Ok(()) => {}
            Err(_) => unreachable!(),
        }
    }

    /// Makes room for so many more drops. The drops stay the same, whatever the answer.
    pub fn reserve(&mut self, additional: usize) -> Result<(), AllocError>
        ensures ok { OnOk result (additional ≤ self.new.room) }
        ensures full { OnErr result (self.old.room < additional) }
        ensures same { self.new.list ≡ self.old.list }
        ensures room { self.old.room ≤ self.new.room }
    {
        self.list.reserve(additional)
    }

    /// How many drops there are.
    pub fn len(&self) -> usize
        ensures { result ≡ length self.now.list }
    {
        self.list.len()
    }

    /// Whether there is no drop.
    pub fn is_empty(&self) -> bool
        ensures { IsTrue result ↔ (self.now.list ≡ []) }
    {
        self.list.is_empty()
    }

    /// The drops, the first one first.
    pub fn as_slice(&self) -> &[(u64, u32)]
        ensures { result.now ≡ self.now.list }
    {
        &self.list
    }
}
