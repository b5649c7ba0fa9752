//! A snapshot has as many chunks in its map as its list is cut into, and the map has room for
//! them. A range of redo lies in a log, below the LSN under which every log ends.
ghost use Rattle.std.specs.Prelude.{◌≡◌, ◌↔◌, ◌+◌, ◌<◌, ◌≤◌, ◌^◌, ℕ, List, []};
ghost use Rattle.std.specs.Prelude.{length, replicate, slice_get, slice_set, slice_index};
ghost use Rattle.std.specs.Prelude.{All, Some};
ghost use Rattle.std.specs.Prelude.{IsTrue, IsNone, IfSome, IfNone, IfOk, OnOk, OnErr};
ghost use Rattle.std.specs.Bool.{OnTrue, OnFalse};
ghost use Rattle.clone_base.specs.declared.limits.TheConstants.{LSN_LIMIT};
ghost use Rattle.clone_chunk.specs.Chunks.{IsTaken, IsLeastFree, left_of};
ghost use Rattle.clone_chunk.specs.Partials.{ArePartials};
ghost use Rattle.clone_chunk.specs.declared.chunk.Chunk.TheVariants.{Free, Claimed, Finished};
ghost use Rattle.clone_snapshot.specs.StageLists.{Files, Pages, Redo, Nothing};
ghost use Rattle.clone_snapshot.specs.StageLists.{PagePart, RedoPart, block_of};
ghost use Rattle.clone_snapshot.specs.StageLists.{stage_of, chunk_count};
ghost use Rattle.clone_snapshot.specs.Snaps.{IsSnap, spaces_of, listed_count, redo_of};
ghost use Rattle.clone_snapshot.specs.Resets.{IsReset, IsLast};
ghost use Rattle.clone_snapshot.specs.declared.block.RedoBlock.{RedoBlock};

use crate::files::{block_of_files, file_chunks};
use crate::listing::Listing;
use crate::pages::block_of_pages;
use crate::redo::block_of_redo;
use crate::resets::{all_kept, reset};
use crate::{PageBlock, RedoBlock, page_chunks, redo_chunks};
use clone_chunk::{ChunkMap, PartialChunk, Stage};
use std::alloc::{AllocError, Global};
use std::marker::Model;

/// A stage's list with the states of its chunks and the masks of their kept blocks. Contracts see
/// these, and for how many chunks there is room.
#[derive(Drop)]
pub struct Snapshot {
    list: Listing,
    chunks: ChunkMap,
}

impl Model for Snapshot {
    ghost use Rattle.clone_snapshot.specs.Snaps.{Snap, list_of, IsSnap};

    ghost Value = { Snap };

    ghost view = { λ s. record {
      list = list_of s.list;
      chunks = s.chunks.states;
      kept = s.chunks.kept;
      room = s.chunks.room;
    } };

    ghost invariant = { λ s. IsSnap (list_of s.list) s.chunks.states s.chunks.room };
}

impl Snapshot {
    /// FILE COPY over these spaces, each with its number of pages, in their order. No chunk is
    /// claimed. The error is that memory ran out.
    pub fn start(alloc: Global, spaces: Vec<(u32, u32)>) -> Result<Snapshot, AllocError>
        requires { chunk_count (Files spaces.items) < 2 ^ 32 }
        ensures list { IfOk result (λ s. s.list ≡ Files spaces.items) }
        ensures chunks { IfOk result
            (λ s. s.chunks ≡ replicate (chunk_count (Files spaces.items)) Free) }
        ensures kept { IfOk result
            (λ s. s.kept ≡ replicate (chunk_count (Files spaces.items)) 0) }
        ensures room { IfOk result (λ s. chunk_count (Files spaces.items) ≤ s.room) }
    {
        let chunks = ChunkMap::new(alloc, file_chunks(&spaces))?;
        Ok(Snapshot {
            list: Listing::Files(spaces),
            chunks,
        })
    }

    /// The stage that is copied.
    pub fn stage(&self) -> Stage
        ensures { result ≡ stage_of self.now.list }
    {
        match &self.list {
            Listing::Files(_) => Stage::FileCopy,
            Listing::Pages(_) => Stage::PageCopy,
            Listing::Redo { .. } => Stage::RedoCopy,
            Listing::Nothing => Stage::Done,
        }
    }

    /// How many chunks the stage has.
    pub fn count(&self) -> u32
        ensures count { result ≡ chunk_count self.now.list }
        ensures states { length self.now.chunks ≡ chunk_count self.now.list }
    {
        self.chunks.count()
    }

    /// How many of them aren't finished.
    pub fn left(&self) -> u32
        ensures { result ≡ left_of self.now.chunks }
    {
        self.chunks.left()
    }

    /// The spaces of FILE COPY, each with its number of pages. There are none in other stages.
    pub fn spaces(&self) -> &[(u32, u32)]
        ensures { result.now ≡ spaces_of self.now.list }
    {
        match &self.list {
            Listing::Files(spaces) => spaces,
            _ => &[],
        }
    }

    /// How many pages PAGE COPY has. It is 0 in other stages.
    pub fn page_count(&self) -> usize
        ensures { result ≡ listed_count self.now.list }
    {
        match &self.list {
            Listing::Pages(pages) => pages.len(),
            _ => 0,
        }
    }

    /// The LSNs at which the redo of REDO COPY begins and ends. There are none in other stages.
    pub fn redo(&self) -> Option<(u64, u64)>
        ensures { result ≡ redo_of self.now.list }
    {
        match &self.list {
            Listing::Redo { start, end } => Some((*start, *end)),
            _ => None,
        }
    }

    /// The least chunk that is neither claimed nor finished, which is the task's from then on. None
    /// comes exactly where there is no such chunk. No memory is taken.
    pub fn claim(&mut self, task: u8) -> Option<u32>
        ensures none { IsNone result ↔ All IsTaken self.old.chunks }
        ensures least { IfSome result (IsLeastFree self.old.chunks) }
        ensures claimed { IfSome result
            (λ n. self.new.chunks ≡ slice_set self.old.chunks n (Claimed task)) }
        ensures unchanged { IfNone result (self.new.chunks ≡ self.old.chunks) }
        ensures list { self.new.list ≡ self.old.list }
        ensures kept { self.new.kept ≡ self.old.kept }
        ensures room { self.new.room ≡ self.old.room }
    {
        self.chunks.claim(task)
    }

    /// Finishes a chunk. The answer is false exactly where this task hasn't claimed it or has
    /// finished it already; nothing has changed then. No memory is taken.
    pub fn finish(&mut self, task: u8, chunk: u32) -> bool
        ensures answer { IsTrue result ↔ (slice_get self.old.chunks chunk ≡ Some (Claimed task)) }
        ensures done { OnTrue result
            (self.new.chunks ≡ slice_set self.old.chunks chunk Finished) }
        ensures unchanged { OnFalse result (self.new.chunks ≡ self.old.chunks) }
        ensures list { self.new.list ≡ self.old.list }
        ensures kept { self.new.kept ≡ self.old.kept }
        ensures room { self.new.room ≡ self.old.room }
    {
        self.chunks.finish(task, chunk)
    }

    /// Whether this task has claimed the chunk and hasn't finished it.
    pub fn is_claimed_by(&self, task: u8, chunk: u32) -> bool
        ensures { IsTrue result ↔ (slice_get self.now.chunks chunk ≡ Some (Claimed task)) }
    {
        self.chunks.is_claimed_by(task, chunk)
    }

    /// The pages of a block. None comes exactly where the stage copies no files or pages, or has no
    /// such chunk, or this no such block.
    pub fn page_block(&self, chunk: u32, block: u8) -> Option<PageBlock>
        ensures { (pages : List (ℕ × ℕ)) →
            (result ≡ Some pages) ↔ (block_of self.now.list chunk block ≡ Some (PagePart pages)) }
    {
        match &self.list {
            Listing::Files(spaces) => block_of_files(spaces, chunk, block),
            Listing::Pages(pages) => block_of_pages(pages, chunk, block),
            _ => None,
        }
    }

    /// Where a block of redo stands in the log. None comes exactly where the stage copies no redo,
    /// or has no such chunk, or this no such block.
    pub fn redo_block(&self, chunk: u32, block: u8) -> Option<RedoBlock>
        ensures { (redo : RedoBlock) → (result ≡ Some redo) ↔
            (block_of self.now.list chunk block ≡ Some (RedoPart redo.from redo.length)) }
    {
        match &self.list {
            Listing::Redo { start, end } => block_of_redo(*start, *end, chunk, block),
            _ => None,
        }
    }

    /// The mask of a chunk's kept blocks: bit b, of value 2^b, is block b. It is 0 where there is
    /// no such chunk.
    pub fn kept(&self, chunk: u32) -> u8
        ensures { result ≡ slice_index self.now.kept chunk }
    {
        self.chunks.kept(chunk)
    }

    /// Whether this is the last of the chunk's blocks that aren't kept.
    pub fn is_last(&self, chunk: u32, block: u8) -> bool
        ensures { IsTrue result ↔ IsLast self.now.list self.now.kept chunk block }
    {
        let blocks = self.list.blocks(chunk);
        block < blocks && all_kept(self.chunks.kept(chunk), block + 1, blocks)
    }

    /// Begins the stage anew with what a requester has: a chunk is finished where its bit is set,
    /// or each of its blocks is in its mask, and free elsewhere; of a chunk the blocks in its mask
    /// are kept, and no others. No claim stays, and no memory is taken.
    pub fn reset_blocks(&mut self, bitmap: &[u8], partials: &[PartialChunk])
        requires { ArePartials partials.now }
        ensures list { self.new.list ≡ self.old.list }
        ensures reset { IsReset self.old.list bitmap.now partials.now self.new.chunks
            self.new.kept }
        ensures room { self.new.room ≡ self.old.room }
    {
        reset(&mut self.chunks, &self.list, bitmap, partials);
    }

    /// Begins the stage anew with the chunks that have their bit, which are finished. No claim
    /// stays, no block is kept, and no memory is taken.
    pub fn reset_to(&mut self, bitmap: &[u8])
        ensures list { self.new.list ≡ self.old.list }
        ensures reset { IsReset self.old.list bitmap.now [] self.new.chunks self.new.kept }
        ensures room { self.new.room ≡ self.old.room }
    {
        self.chunks.reset_to(bitmap);
    }

    /// Makes all chunks free again, with no block kept. No memory is taken.
    pub fn restart(&mut self)
        ensures list { self.new.list ≡ self.old.list }
        ensures chunks { self.new.chunks ≡ replicate (chunk_count self.old.list) Free }
        ensures kept { self.new.kept ≡ replicate (chunk_count self.old.list) 0 }
        ensures room { self.old.room ≤ self.new.room }
    {
        self.chunks.restart(self.chunks.count());
    }

    /// Makes room for so many chunks at least, and changes nothing else. The error is want of
    /// memory.
    pub fn reserve(&mut self, chunks: u32) -> Result<(), AllocError>
        ensures list { self.new.list ≡ self.old.list }
        ensures chunks { self.new.chunks ≡ self.old.chunks }
        ensures kept { self.new.kept ≡ self.old.kept }
        ensures room { OnOk result (chunks ≤ self.new.room) }
        ensures more { self.old.room ≤ self.new.room }
        ensures err { OnErr result (self.new.room ≡ self.old.room) }
    {
        self.chunks.reserve(chunks)
    }

    /// Goes on to PAGE COPY over these pages, each as its space and its number there. No chunk is
    /// claimed. No memory is taken.
    pub fn page_copy(&mut self, pages: Vec<(u32, u32)>)
        requires numbered { chunk_count (Pages pages.items) < 2 ^ 32 }
        requires room { chunk_count (Pages pages.items) ≤ self.old.room }
        ensures list { self.new.list ≡ Pages pages.items }
        ensures chunks { self.new.chunks ≡ replicate (chunk_count (Pages pages.items)) Free }
        ensures kept { self.new.kept ≡ replicate (chunk_count (Pages pages.items)) 0 }
        ensures room { self.old.room ≤ self.new.room }
    {
        self.chunks.restart(page_chunks(pages.len()));
        self.list = Listing::Pages(pages);
    }

    /// Goes on to REDO COPY of the bytes from one LSN up to another. No chunk is claimed. No memory
    /// is taken.
    pub fn redo_copy(&mut self, start: u64, end: u64)
        requires ordered { start ≤ end }
        requires in_log { end < LSN_LIMIT }
        requires room { chunk_count (Redo start end) ≤ self.old.room }
        ensures list { self.new.list ≡ Redo start end }
        ensures chunks { self.new.chunks ≡ replicate (chunk_count (Redo start end)) Free }
        ensures kept { self.new.kept ≡ replicate (chunk_count (Redo start end)) 0 }
        ensures room { self.old.room ≤ self.new.room }
    {
        self.chunks.restart(redo_chunks(start, end));
        self.list = Listing::Redo { start, end };
    }

    /// Goes on to the last stage, in which nothing is left. No memory is taken.
    pub fn done(&mut self)
        ensures list { self.new.list ≡ Nothing }
        ensures chunks { self.new.chunks ≡ [] }
        ensures kept { self.new.kept ≡ [] }
        ensures room { self.old.room ≤ self.new.room }
    {
        self.chunks.restart(0);
        self.list = Listing::Nothing;
    }

    /// What holds of every snapshot.
    pub fn laws(&self)
        ensures { IsSnap self.now.list self.now.chunks self.now.room }
    {
        let _ = &self.list;
    }
}
