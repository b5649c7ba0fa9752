//! What a loss leaves of the marks, and what a donor is sent of them.
ghost use Rattle.std.specs.Prelude.{◌≡◌, ◌≤◌, ℕ, All, length, take, IfOk};
ghost use Rattle.clone_chunk.specs.Chunks.{has_bit};
ghost use Rattle.clone_chunk.specs.declared.bitmap.TheConstants.{MOST_CHUNKS};
ghost use Rattle.clone_chunk.specs.declared.partials.TheConstants.{MOST_PARTIAL};
ghost use Rattle.clone_marks.specs.Blocks.{IsChunk, is_finished_at, partials_of};
ghost use Rattle.clone_marks.specs.Forgetting.{forgotten};

use crate::ChunkMarks;
use clone_chunk::{Bitmap, PartialChunk, Partials};
use std::alloc::{AllocError, Global};

/// The first so many partial chunks keep their blocks, and the others lose them.
pub(crate) fn forget(chunks: &mut [ChunkMarks], kept: usize)
    requires { All IsChunk chunks.old }
    ensures { chunks.new ≡ forgotten kept chunks.old }
{
    let mut more = kept;
    for chunk in chunks.iter_mut() {
        let (left, rest) = chunk.left(more);
        *chunk = left;
        more = rest;
    }
}

/// A bit for each chunk that is finished.
pub(crate) fn finished_bits(alloc: Global, chunks: &[ChunkMarks]) -> Result<Bitmap, AllocError>
    requires are { All IsChunk chunks.now }
    requires few { length chunks.now ≤ MOST_CHUNKS }
    ensures count { IfOk result (λ bits. bits.count ≡ length chunks.now) }
    ensures bits { IfOk result
        (λ bits. (i : ℕ) → has_bit bits.bytes i ≡ is_finished_at chunks.now i) }
{
    let mut bits = Bitmap::new(alloc, chunks.len() as u32)?;
    for (number, chunk) in chunks.iter().enumerate() {
        if chunk.is_finished() {
            bits.set(number as u32);
        }
    }
    Ok(bits)
}

/// The first 1,616 partial chunks.
pub(crate) fn first_partials(alloc: Global, chunks: &[ChunkMarks]) -> Result<Partials, AllocError>
    requires are { All IsChunk chunks.now }
    requires few { length chunks.now ≤ MOST_CHUNKS }
    ensures { IfOk result (λ p. p ≡ take MOST_PARTIAL (partials_of chunks.now)) }
{
    let mut partials = Partials::new(alloc);
    for (number, chunk) in chunks.iter().enumerate() {
        if chunk.is_partial() && !partials.is_full() {
            partials.push(PartialChunk {
                chunk: number as u32,
                mask: chunk.taken,
            })?;
        }
    }
    Ok(partials)
}
