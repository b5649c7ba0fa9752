//! Chunks of which some blocks were taken and some weren't: at most 1,616 of them, ascending by
//! their numbers, each with a mask from 1 to 254. Bit b of a mask, of value 2^b, says that block b
//! was taken; a chunk has at most 8 blocks.
ghost use Rattle.std.specs.Prelude.{◌≡◌, ◌↔◌, ◌<◌, ◌++◌, ◌∷◌, [], length, IsTrue, OnOk, OnErr};
ghost use Rattle.clone_chunk.specs.Partials.{IsMask, IsAbove, ArePartials};
ghost use Rattle.clone_chunk.specs.declared.partials.TheConstants.{MOST_PARTIAL};

use std::alloc::{AllocError, Global};
use std::marker::Model;

/// How many partial chunks a list may have.
pub const MOST_PARTIAL: usize = 1_616;

/// The greatest mask. With 255 each of eight blocks would be there, and the chunk be finished.
pub const MOST_MASK: u8 = 254;

/// A chunk of which some blocks were taken and some weren't.
#[derive(Clone, Copy, Debug, PartialEq, Eq)]
pub struct PartialChunk {
    /// Its number.
    pub chunk: u32,
    /// The blocks that were taken: block b where the bit of value 2^b is set.
    pub mask: u8,
}

/// A list of at most 1,616 partial chunks, ascending by their numbers.
#[derive(Drop)]
pub struct Partials {
    list: Vec<PartialChunk>,
}

impl Model for Partials {
    ghost use Rattle.std.specs.Prelude.{List};
    ghost use Rattle.clone_chunk.specs.Partials.{ArePartials};
    ghost use Rattle.clone_chunk.specs.declared.partials.PartialChunk.{PartialChunk};

    ghost Value = { List PartialChunk };

    ghost view = { λ p. p.list.items };

    ghost invariant = { λ p. ArePartials p.list.items };
}

impl Partials {
    /// No partial chunk.
    pub fn new(alloc: Global) -> Partials
        ensures { result ≡ [] }
    {
        Partials {
            list: Vec::new(alloc),
        }
    }

    /// Whether there are 1,616 of them.
    pub fn is_full(&self) -> bool
        ensures { IsTrue result ↔ (length self.now ≡ MOST_PARTIAL) }
    {
        self.list.len() == MOST_PARTIAL
    }

    /// Adds a chunk at the end. The error is that memory ran out, and the list is as before.
    pub fn push(&mut self, partial: PartialChunk) -> Result<(), AllocError>
        requires room { length self.old < MOST_PARTIAL }
        requires mask { IsMask partial.mask }
        requires above { IsAbove self.old partial.chunk }
        ensures ok { OnOk result (self.new ≡ self.old ++ partial ∷ []) }
        ensures err { OnErr result (self.new ≡ self.old) }
    {
        self.list.push(partial)?;
        Ok(())
    }

    /// The chunks in their order.
    pub fn as_slice(&self) -> &[PartialChunk]
        ensures value { result.now ≡ self.now }
        ensures are { ArePartials self.now }
    {
        &self.list
    }
}
