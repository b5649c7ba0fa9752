//! The spaces of a stage: at most 63 of them, those of the tables and the system space, each with
//! its number of pages.
ghost use Rattle.std.specs.Prelude.{◌≡◌, ◌≤◌, ◌<◌, ◌++◌, ◌∷◌, ◌↔◌, [], length, IfOk, OnOk, OnErr, IsTrue};
ghost use Rattle.clone_base.specs.declared.limits.TheConstants.{SPACE_LIMIT};
ghost use Rattle.clone_chunk.specs.Plans.{sizes_of};

use clone_base::SPACE_LIMIT;
use std::alloc::{AllocError, Global};
use std::marker::Model;

/// A space, and how many pages it has.
#[derive(Clone, Copy, Debug, PartialEq, Eq)]
pub struct SpaceSize {
    /// Its number.
    pub space: u32,
    /// How many pages it has.
    pub pages: u32,
}

/// A list of at most 63 spaces.
#[derive(Drop)]
pub struct Spaces {
    list: Vec<SpaceSize>,
}

impl Model for Spaces {
    ghost use Rattle.clone_base.specs.declared.limits.TheConstants.{SPACE_LIMIT};
    ghost use Rattle.std.specs.Prelude.{List, length, ◌≤◌};
    ghost use Rattle.clone_chunk.specs.declared.spaces.SpaceSize.{SpaceSize};

    ghost Value = { List SpaceSize };

    ghost view = { λ s. s.list.items };

    ghost invariant = { λ s. length s.list.items ≤ SPACE_LIMIT };
}

impl Spaces {
    /// No spaces.
    pub fn new(alloc: Global) -> Spaces
        ensures { result ≡ [] }
    {
        Spaces {
            list: Vec::new(alloc),
        }
    }

    /// The spaces of these pairs, each a number and how many pages the space has.
    pub fn of_pairs(alloc: Global, pairs: &[(u32, u32)]) -> Result<Spaces, AllocError>
        requires { length pairs.now ≤ SPACE_LIMIT }
        ensures { IfOk result (λ spaces. spaces ≡ sizes_of pairs.now) }
    {
        let mut list = Vec::with_capacity(alloc, pairs.len())?;
        for (space, pages) in pairs {
            list.push(SpaceSize {
                space: *space,
                pages: *pages,
            })?;
        }
        Ok(Spaces { list })
    }

    /// Whether there are 63 spaces.
    pub fn is_full(&self) -> bool
        ensures { IsTrue result ↔ (length self.now ≡ SPACE_LIMIT) }
    {
        self.list.len() == SPACE_LIMIT
    }

    /// Adds a space at the end. The error is that memory ran out, and the list is as before.
    pub fn push(&mut self, space: SpaceSize) -> Result<(), AllocError>
        requires { length self.old < SPACE_LIMIT }
        ensures ok { OnOk result (self.new ≡ self.old ++ space ∷ []) }
        ensures err { OnErr result (self.new ≡ self.old) }
    {
        self.list.push(space)?;
        Ok(())
    }

    /// The spaces in their order.
    pub fn as_slice(&self) -> &[SpaceSize]
        ensures value { result.now ≡ self.now }
        ensures few { length self.now ≤ SPACE_LIMIT }
    {
        &self.list
    }
}
