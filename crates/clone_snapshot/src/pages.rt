ghost use Rattle.std.specs.Prelude.{◌≡◌, ◌≤◌, ◌+◌, length, take, drop};
ghost use Rattle.std.specs.Prelude.{slice_get, option_map, IfSome};
ghost use Rattle.clone_snapshot.specs.StageLists.{Pages, PagePart, chunks_of};
ghost use Rattle.clone_snapshot.specs.StageLists.{block_of, block_count};

use crate::span::Span;
use crate::{CHUNK_PAGES, PageBlock};
use clone_base::BLOCK_PAGES;

/// The pages of a block of a list of pages, if there is such a block.
pub(crate) fn block_of_pages(pages: &[(u32, u32)], chunk: u32, block: u8) -> Option<PageBlock>
    ensures { option_map (λ pages. PagePart pages) result ≡
        block_of (Pages pages.now) chunk block }
{
    let chunk = page_chunk(pages, chunk)?;
    let indexes = chunk.piece(BLOCK_PAGES as u32, block as u32)?;
    let first = indexes.first as usize;
    Some(PageBlock::of(&pages[first..first + indexes.count as usize]))
}

/// How many blocks a chunk of a list of pages has, or 0 where there is no such chunk.
pub(crate) fn blocks_of_pages(pages: &[(u32, u32)], chunk: u32) -> u64
    ensures { result ≡ block_count (Pages pages.now) chunk }
{
    match page_chunk(pages, chunk) {
        Some(chunk) => chunk.count.div_ceil(BLOCK_PAGES as u64),
        None => 0,
    }
}

// The indexes of a chunk's pages in the list.
fn page_chunk(pages: &[(u32, u32)], chunk: u32) -> Option<Span>
    ensures chunk { option_map (λ c. PagePart (take c.count (drop c.first pages.now))) result ≡
        slice_get (chunks_of (Pages pages.now)) chunk }
    ensures range { IfSome result (λ c. c.first + c.count ≤ length pages.now) }
{
    let whole = Span {
        first: 0,
        count: pages.len() as u64,
    };
    whole.piece(CHUNK_PAGES, chunk)
}
