ghost use Rattle.std.specs.Prelude.{◌≡◌, ◌≤◌, ◌+◌, slice_get, option_map, IfSome};
ghost use Rattle.clone_snapshot.specs.StageLists.{Redo, RedoPart, chunks_of};
ghost use Rattle.clone_snapshot.specs.StageLists.{block_of, block_count};

use crate::span::Span;
use crate::{CHUNK_BYTES, RedoBlock};
use clone_base::BLOCK_BYTES;

/// Where a block of the redo from one LSN up to another stands, if there is such a block.
pub(crate) fn block_of_redo(start: u64, end: u64, chunk: u32, block: u8) -> Option<RedoBlock>
    requires { start ≤ end }
    ensures { option_map (λ b. RedoPart b.from b.length) result ≡
        block_of (Redo start end) chunk block }
{
    let chunk = redo_chunk(start, end, chunk)?;
    let bytes = chunk.piece(BLOCK_BYTES as u32, block as u32)?;
    Some(RedoBlock {
        from: bytes.first,
        length: bytes.count as u32,
    })
}

/// How many blocks a chunk of redo has, or 0 where there is no such chunk.
pub(crate) fn blocks_of_redo(start: u64, end: u64, chunk: u32) -> u64
    requires { start ≤ end }
    ensures { result ≡ block_count (Redo start end) chunk }
{
    match redo_chunk(start, end, chunk) {
        Some(chunk) => chunk.count.div_ceil(BLOCK_BYTES as u64),
        None => 0,
    }
}

// The bytes of a chunk.
fn redo_chunk(start: u64, end: u64, chunk: u32) -> Option<Span>
    requires { start ≤ end }
    ensures chunk { option_map (λ c. RedoPart c.first c.count) result ≡
        slice_get (chunks_of (Redo start end)) chunk }
    ensures range { IfSome result (λ c. c.first + c.count ≤ end) }
{
    let whole = Span {
        first: start,
        count: end - start,
    };
    whole.piece(CHUNK_BYTES, chunk)
}
