//! The states of the chunks of a stage, by their numbers, and the kept blocks of each as a mask.
//! There are fewer than 2^32 chunks. No chunk below `searched` is free, so that a search for a free
//! one may begin there. `left` is always how many chunks aren't finished, free or claimed. Both
//! lists have room for `room` chunks.
ghost use Rattle.std.specs.Prelude.{◌≡◌, ◌↔◌, ◌<◌, ◌≤◌, ◌^◌, Some, length, replicate, position};
ghost use Rattle.std.specs.Prelude.{slice_get, slice_set, slice_index, All, if◌then◌else◌};
ghost use Rattle.std.specs.Prelude.{IsTrue, IsNone, IfSome, IfNone, IfOk, OnOk, OnErr};
ghost use Rattle.std.specs.Prelude.{vec_capacity};
ghost use Rattle.std.specs.Bool.{OnTrue, OnFalse};
ghost use Rattle.clone_chunk.specs.Chunks.{IsTaken, IsLeastFree, is_free};
ghost use Rattle.clone_chunk.specs.Chunks.{left_of, IsMarked, within, is_whole};
ghost use Rattle.clone_chunk.specs.declared.masks.TheConstants.{CHUNK_BLOCKS};

use crate::masks::{is_whole, within};
use crate::{Chunk, is_set};
use std::alloc::{AllocError, Global};
use std::marker::Model;

// No chunk below `searched` is free. As a chunk that isn't free becomes free by a reset or a
// restart alone, and the search begins at the front again after these, all claims together look at
// each chunk once.

/// The chunks of a stage. Contracts see it as the states of the chunks and the masks of their kept
/// blocks, from chunk 0 on, and as the number of chunks that there is room for.
#[derive(Drop)]
pub struct ChunkMap {
    states: Vec<Chunk>,
    kept: Vec<u8>,
    room: u32,
    searched: usize,
    left: u32,
}

impl Model for ChunkMap {
    ghost use Rattle.clone_chunk.specs.Chunks.{Chunks, IsMap, HasRoom};

    ghost Value = { Chunks };

    ghost view = { λ m. record { states = m.states.items; kept = m.kept.items; room = m.room } };

    ghost invariant = { λ m. IsMap m.states.items m.searched m.left
        × HasRoom m.states m.kept m.room };
}

impl ChunkMap {
    /// So many chunks, none claimed or finished, and room for them.
    pub fn new(alloc: Global, chunks: u32) -> Result<ChunkMap, AllocError>
        ensures states { IfOk result (λ map. map.states ≡ replicate chunks Chunk.Free) }
        ensures kept { IfOk result (λ map. map.kept ≡ replicate chunks 0) }
        ensures room { IfOk result (λ map. chunks ≤ map.room) }
    {
        let mut states = Vec::with_capacity(alloc, chunks as usize)?;
        let mut kept = Vec::with_capacity(alloc, chunks as usize)?;
        states.resize(chunks as usize, Chunk::Free)?;
        kept.resize(chunks as usize, 0)?;
        Ok(ChunkMap {
            states,
            kept,
            room: chunks,
            searched: 0,
            left: chunks,
        })
    }

    /// How many chunks there are.
    pub fn count(&self) -> u32
        ensures { result ≡ length self.now.states }
    {
        self.states.len() as u32
    }

    /// The least chunk that is neither claimed nor finished, which is the task's from then on. None
    /// comes exactly where there is no such chunk. No memory is taken.
    pub fn claim(&mut self, task: u8) -> Option<u32>
        ensures none { IsNone result ↔ All IsTaken self.old.states }
        ensures least { IfSome result (IsLeastFree self.old.states) }
        ensures claimed { IfSome result
            (λ n. self.new.states ≡ slice_set self.old.states n (Chunk.Claimed task)) }
        ensures unchanged { IfNone result (self.new.states ≡ self.old.states) }
        ensures kept { self.new.kept ≡ self.old.kept }
        ensures room { self.new.room ≡ self.old.room }
    {
        let Some(ahead) = first_free(&self.states[self.searched..]) else {
            self.searched = self.states.len();
            return None;
        };
        let chunk = self.searched + ahead;
        self.states[chunk] = Chunk::Claimed { task };
        self.searched = chunk + 1;
        Some(chunk as u32)
    }

    /// Finishes a chunk. The answer is false exactly where this task hasn't claimed it or has
    /// finished it already; nothing has changed then. No memory is taken.
    pub fn finish(&mut self, task: u8, chunk: u32) -> bool
        ensures answer { IsTrue result ↔
            (slice_get self.old.states chunk ≡ Some (Chunk.Claimed task)) }
        ensures done { OnTrue result
            (self.new.states ≡ slice_set self.old.states chunk Chunk.Finished) }
        ensures unchanged { OnFalse result (self.new.states ≡ self.old.states) }
        ensures kept { self.new.kept ≡ self.old.kept }
        ensures room { self.new.room ≡ self.old.room }
    {
        if !self.is_claimed_by(task, chunk) {
            return false;
        }
        self.settle(chunk as usize);
        true
    }

    // A chunk is finished, whoever has claimed it.
    fn settle(&mut self, chunk: usize)
        requires { chunk < length self.old.states }
        ensures states { self.new.states ≡ slice_set self.old.states chunk Chunk.Finished }
        ensures kept { self.new.kept ≡ self.old.kept }
        ensures room { self.new.room ≡ self.old.room }
    {
        if matches!(self.states[chunk], Chunk::Finished) {
            return;
        }
        self.states[chunk] = Chunk::Finished;
        self.left -= 1;
    }

    /// Whether this task has claimed the chunk and hasn't finished it.
    pub fn is_claimed_by(&self, task: u8, chunk: u32) -> bool
        ensures { IsTrue result ↔
            (slice_get self.now.states chunk ≡ Some (Chunk.Claimed task)) }
    {
        match self.states.get(chunk as usize) {
            Some(Chunk::Claimed { task: by }) => *by == task,
            _ => false,
        }
    }

    /// Whether a chunk is finished. One that isn't there is not.
    pub fn finished(&self, chunk: u32) -> bool
        ensures { IsTrue result ↔ (slice_get self.now.states chunk ≡ Some Chunk.Finished) }
    {
        matches!(self.states.get(chunk as usize), Some(Chunk::Finished))
    }

    /// How many chunks aren't finished.
    pub fn left(&self) -> u32
        ensures { result ≡ left_of self.now.states }
    {
        self.left
    }

    /// The mask of a chunk's kept blocks: bit b, of value 2^b, is block b. It is 0 where there is
    /// no such chunk.
    pub fn kept(&self, chunk: u32) -> u8
        ensures { result ≡ slice_index self.now.kept chunk }
    {
        self.kept.get(chunk as usize).copied().unwrap_or(0)
    }

    /// Makes a chunk finished exactly where the bitmap has its bit, and free elsewhere. No block is
    /// kept. Bit i stands in byte i/8 with the value 2^(i mod 8); past the bitmap's end no bit is
    /// set. No memory is taken.
    pub fn reset_to(&mut self, bitmap: &[u8])
        ensures states { IsMarked bitmap.now self.old.states self.new.states }
        ensures kept { self.new.kept ≡ replicate (length self.old.states) 0 }
        ensures room { self.new.room ≡ self.old.room }
    {
        mark(&mut self.states, bitmap);
        unkeep(&mut self.kept, self.states.len());
        self.searched = 0;
        self.left = unfinished(&self.states);
    }

    /// Keeps the blocks in a mask of a chunk that has so many blocks, and no others of it; bits
    /// past the chunk's blocks are dropped. Where each of its blocks is in the mask, the chunk is
    /// finished. Where there is no such chunk, nothing changes. No memory is taken.
    pub fn keep(&mut self, chunk: u32, mask: u8, blocks: u8)
        requires { blocks ≤ CHUNK_BLOCKS }
        ensures kept { self.new.kept ≡ slice_set self.old.kept chunk (within mask blocks) }
        ensures states { self.new.states ≡ (if is_whole mask blocks
            then slice_set self.old.states chunk Chunk.Finished else self.old.states) }
        ensures room { self.new.room ≡ self.old.room }
    {
        let chunk = chunk as usize;
        if self.states.len() <= chunk {
            return;
        }
        self.kept[chunk] = within(mask, blocks);
        if is_whole(mask, blocks) {
            self.settle(chunk);
        }
    }

    /// Makes room for so many chunks at least, and changes nothing else. The error is want of
    /// memory, and the map is as before.
    pub fn reserve(&mut self, chunks: u32) -> Result<(), AllocError>
        ensures states { self.new.states ≡ self.old.states }
        ensures kept { self.new.kept ≡ self.old.kept }
        ensures room { OnOk result (chunks ≤ self.new.room) }
        ensures more { self.old.room ≤ self.new.room }
        ensures err { OnErr result (self.new.room ≡ self.old.room) }
    {
        if chunks <= self.room {
            return Ok(());
        }
        let more = (chunks as usize).saturating_sub(self.states.len());
        self.states.reserve(more)?;
        self.kept.reserve(more)?;
        self.room = chunks;
        Ok(())
    }

    /// Begins anew with so many chunks, none claimed or finished. No memory is taken.
    pub fn restart(&mut self, chunks: u32)
        requires { chunks ≤ self.old.room }
        ensures states { self.new.states ≡ replicate chunks Chunk.Free }
        ensures kept { self.new.kept ≡ replicate chunks 0 }
        ensures room { self.old.room ≤ self.new.room }
    {
        self.states.clear();
        let filled = self.states.resize(chunks as usize, Chunk::Free);
        prove!(filled.is_ok());
        unkeep(&mut self.kept, chunks as usize);
        self.searched = 0;
        self.left = chunks;
    }
}

fn first_free(states: &[Chunk]) -> Option<usize>
    ensures { result ≡ position is_free states.now }
{
    states.iter().position(|state| matches!(state, Chunk::Free))
}

// No block of so many chunks is kept.
fn unkeep(kept: &mut Vec<u8>, chunks: usize)
    requires { chunks ≤ vec_capacity kept.old }
    ensures items { kept.new.items ≡ replicate chunks 0 }
    ensures room { vec_capacity kept.old ≤ vec_capacity kept.new }
{
    kept.clear();
    let filled = kept.resize(chunks, 0);
    prove!(filled.is_ok());
}

// Marks the chunks from 0 on as finished where they have their bit, and as free elsewhere.
fn mark(states: &mut [Chunk], bitmap: &[u8])
    requires { length states.old < 2 ^ 32 }
    ensures { IsMarked bitmap.now states.old states.new }
{
    for (chunk, state) in states.iter_mut().enumerate() {
        *state = if is_set(bitmap, chunk as u32) {
            Chunk::Finished
        } else {
            Chunk::Free
        };
    }
}

// How many of the chunks aren't finished.
fn unfinished(states: &[Chunk]) -> u32
    requires { length states.now < 2 ^ 32 }
    ensures { result ≡ left_of states.now }
{
    states
        .iter()
        .filter(|state| !matches!(state, Chunk::Finished))
        .count() as u32
}
