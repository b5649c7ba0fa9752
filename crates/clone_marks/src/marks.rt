//! Each chunk has 1 to 8 blocks, and a mask in which no bit but those of its blocks is set. There
//! are at most as many chunks as a bitmap may have. `finished` is always how many are finished.
ghost use Rattle.std.specs.Prelude.{◌≡◌, ◌<◌, ◌≤◌, ◌↔◌, ◌==◌, ◌&&◌, ◌||◌, [], ℕ, length, take, All};
ghost use Rattle.std.specs.Prelude.{IfOk, IsTrue};
ghost use Rattle.std.specs.Int.{div_ceil};
ghost use Rattle.clone_base.specs.declared.limits.TheConstants.{LSN_LIMIT};
ghost use Rattle.clone_chunk.specs.Chunks.{has_bit};
ghost use Rattle.clone_chunk.specs.declared.bitmap.TheConstants.{MOST_CHUNKS};
ghost use Rattle.clone_chunk.specs.declared.partials.TheConstants.{MOST_PARTIAL};
ghost use Rattle.clone_snapshot.specs.StageLists.{Files, Redo, chunk_count};
ghost use Rattle.clone_snapshot.specs.declared.sizes.TheConstants.{CHUNK_PAGES};
ghost use Rattle.clone_marks.specs.Blocks.{IsChunk, blocks_of, is_taken, is_left, is_finished_at};
ghost use Rattle.clone_marks.specs.Blocks.{finished_count, all_finished, partials_of, AreAllTaken};
ghost use Rattle.clone_marks.specs.Counts.{pairs_of, counted_pages, block_counts, unmarked};
ghost use Rattle.clone_marks.specs.Forgetting.{forgotten};

use crate::ChunkMarks;
use crate::making::{push_run, push_spaces};
use crate::reporting::{finished_bits, first_partials, forget};
use clone_base::{BLOCK_BYTES, BLOCK_PAGES};
use clone_chunk::{Bitmap, SpaceSize, TakenBlocks};
use clone_snapshot::{CHUNK_BYTES, CHUNK_PAGES};
use std::alloc::{AllocError, Global};
use std::marker::Model;

/// Which blocks of a stage's chunks were taken. Contracts see the chunks, from chunk 0 on.
#[derive(Drop)]
pub struct Marks {
    chunks: Vec<ChunkMarks>,
    finished: u32,
}

impl Model for Marks {
    ghost use Rattle.std.specs.Prelude.{List};
    ghost use Rattle.clone_marks.specs.declared.chunk_marks.ChunkMarks.{ChunkMarks};
    ghost use Rattle.clone_marks.specs.Blocks.{AreMarks};

    ghost Value = { List ChunkMarks };

    ghost view = { λ m. m.chunks.items };

    ghost invariant = { λ m. AreMarks m.chunks.items m.finished };
}

impl Marks {
    /// No chunk. No memory is taken.
    pub fn none(alloc: Global) -> Marks
        ensures { result ≡ [] }
    {
        Marks {
            chunks: Vec::new(alloc),
            finished: 0,
        }
    }

    /// What holds of all marks: there are no more chunks than a bitmap shows, with 1 to 8 blocks
    /// each.
    pub fn laws(&self)
        ensures chunks { All IsChunk self.now }
        ensures few { length self.now ≤ MOST_CHUNKS }
    {
        let _finished = self.finished;
    }

    /// The chunks of the files of these spaces, none of whose blocks was taken.
    pub fn of_files(alloc: Global, spaces: &[SpaceSize]) -> Result<Marks, AllocError>
        requires { chunk_count (Files (pairs_of spaces.now)) ≤ MOST_CHUNKS }
        ensures { IfOk result
            (λ marks. marks ≡ unmarked (block_counts (Files (pairs_of spaces.now)))) }
    {
        let mut chunks = Vec::new(alloc);
        push_spaces(&mut chunks, spaces)?;
        Ok(Marks {
            chunks,
            finished: 0,
        })
    }

    /// The chunks of so many pages, none of whose blocks was taken.
    pub fn of_pages(alloc: Global, pages: u64) -> Result<Marks, AllocError>
        requires { div_ceil pages CHUNK_PAGES ≤ MOST_CHUNKS }
        ensures { IfOk result (λ marks. marks ≡ unmarked (block_counts (counted_pages pages))) }
    {
        let mut chunks = Vec::new(alloc);
        push_run(&mut chunks, pages, CHUNK_PAGES, BLOCK_PAGES as u32)?;
        Ok(Marks {
            chunks,
            finished: 0,
        })
    }

    /// The chunks of the redo from one LSN up to another, none of whose blocks was taken.
    pub fn of_redo(alloc: Global, checkpoint: u64, lsn: u64) -> Result<Marks, AllocError>
        requires ordered { checkpoint ≤ lsn }
        requires in_log { lsn < LSN_LIMIT }
        ensures { IfOk result (λ marks. marks ≡ unmarked (block_counts (Redo checkpoint lsn))) }
    {
        let mut chunks = Vec::new(alloc);
        let bytes = lsn - checkpoint;
        push_run(&mut chunks, bytes, CHUNK_BYTES, BLOCK_BYTES as u32)?;
        Ok(Marks {
            chunks,
            finished: 0,
        })
    }

    /// How many chunks there are.
    pub fn count(&self) -> u32
        ensures count { result ≡ length self.now }
        ensures few { length self.now ≤ MOST_CHUNKS }
    {
        self.chunks.len() as u32
    }

    /// How many chunks are finished.
    pub fn finished(&self) -> u32
        ensures { result ≡ finished_count self.now }
    {
        self.finished
    }

    /// Whether each chunk is finished, which is so where each of their blocks was taken.
    pub fn all_finished(&self) -> bool
        ensures value { result ≡ all_finished self.now }
        ensures blocks { IsTrue result ↔ AreAllTaken self.now }
    {
        self.finished == self.chunks.len() as u32
    }

    /// Whether a chunk is finished. One that isn't there is not.
    pub fn is_finished(&self, chunk: u32) -> bool
        ensures { result ≡ is_finished_at self.now chunk }
    {
        match self.chunks.get(chunk as usize) {
            Some(marks) => marks.is_finished(),
            None => false,
        }
    }

    /// Whether a block was taken. One that isn't there was not.
    pub fn is_taken(&self, chunk: u32, block: u8) -> bool
        ensures { result ≡ is_taken self.now chunk block }
    {
        match self.chunks.get(chunk as usize) {
            Some(marks) => marks.has(block),
            None => false,
        }
    }

    /// Whether there is such a block and it wasn't taken.
    pub fn is_left(&self, chunk: u32, block: u8) -> bool
        ensures { result ≡ is_left self.now chunk block }
    {
        match self.chunks.get(chunk as usize) {
            Some(marks) => marks.lacks(block),
            None => false,
        }
    }

    /// A block is taken. No memory is taken.
    pub fn mark(&mut self, chunk: u32, block: u8)
        requires { IsTrue (is_left self.old chunk block) }
        ensures chunks { blocks_of self.new ≡ blocks_of self.old }
        ensures taken { (c b : ℕ) → is_taken self.new c b ≡
            (is_taken self.old c b || ((c == chunk) && (b == block))) }
    {
        let marked = self.chunks[chunk as usize].with(block);
        self.chunks[chunk as usize] = marked;
        if marked.is_finished() {
            self.finished += 1;
        }
    }

    /// A loss: the first so many chunks of which some blocks were taken and some weren't keep
    /// theirs, and the other such chunks lose them. No memory is taken.
    pub fn forget(&mut self, kept: usize)
        ensures { self.new ≡ forgotten kept self.old }
    {
        forget(&mut self.chunks, kept);
    }

    /// A bit for each chunk that is finished.
    pub fn finished_bits(&self, alloc: Global) -> Result<Bitmap, AllocError>
        ensures count { IfOk result (λ bits. bits.count ≡ length self.now) }
        ensures bits { IfOk result
            (λ bits. (i : ℕ) → has_bit bits.bytes i ≡ is_finished_at self.now i) }
    {
        finished_bits(alloc, &self.chunks)
    }

    /// A bit for each chunk that is finished, and the first 1,616 chunks of which some blocks were
    /// taken and some weren't.
    pub fn taken_blocks(&self, alloc: Global) -> Result<TakenBlocks, AllocError>
        ensures count { IfOk result (λ t. t.finished.count ≡ length self.now) }
        ensures bits { IfOk result
            (λ t. (i : ℕ) → has_bit t.finished.bytes i ≡ is_finished_at self.now i) }
        ensures partials { IfOk result
            (λ t. t.partials ≡ take MOST_PARTIAL (partials_of self.now)) }
    {
        let finished = finished_bits(alloc, &self.chunks)?;
        let partials = first_partials(alloc, &self.chunks)?;
        Ok(TakenBlocks::new(finished, partials))
    }
}
