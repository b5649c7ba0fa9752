//! The chunks of a stage as it begins.
ghost use Rattle.std.specs.Prelude.{◌≡◌, ◌<◌, ◌≤◌, ◌*◌, ◌++◌, OnOk};
ghost use Rattle.clone_snapshot.specs.StageLists.{Files};
ghost use Rattle.clone_marks.specs.Counts.{pairs_of, block_counts, run_counts, unmarked};

use crate::ChunkMarks;
use clone_base::BLOCK_PAGES;
use clone_chunk::SpaceSize;
use clone_snapshot::CHUNK_PAGES;
use std::alloc::AllocError;

/// Adds the chunks of the files of these spaces, in their order.
pub(crate) fn push_spaces(
    chunks: &mut Vec<ChunkMarks>,
    spaces: &[SpaceSize],
) -> Result<(), AllocError>
    ensures { OnOk result (chunks.new.items ≡
        chunks.old.items ++ unmarked (block_counts (Files (pairs_of spaces.now)))) }
{
    for space in spaces {
        let pages = space.pages as u64;
        push_run(chunks, pages, CHUNK_PAGES, BLOCK_PAGES as u32)?;
    }
    Ok(())
}

/// Adds the chunks of so many pages or bytes, where a chunk and a block have so many.
pub(crate) fn push_run(
    chunks: &mut Vec<ChunkMarks>,
    units: u64,
    chunk: u32,
    block: u32,
) -> Result<(), AllocError>
    requires some { 0 < chunk }
    requires block { 0 < block }
    requires few { chunk ≤ 8 * block }
    ensures { OnOk result (chunks.new.items ≡
        chunks.old.items ++ unmarked (run_counts units chunk block)) }
{
    for index in 0..units.div_ceil(chunk as u64) {
        let here = (chunk as u64).min(units - chunk as u64 * index);
        chunks.push(ChunkMarks {
            blocks: here.div_ceil(block as u64) as u8,
            taken: 0,
        })?;
    }
    Ok(())
}
