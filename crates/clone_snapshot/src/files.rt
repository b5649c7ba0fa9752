ghost use Rattle.std.specs.Prelude.{◌≡◌, ◌<◌, ◌+◌, ◌^◌, slice_get, option_map, IfSome};
ghost use Rattle.clone_snapshot.specs.StageLists.{Files, PagePart, run, cut, chunks_of};
ghost use Rattle.clone_snapshot.specs.StageLists.{chunk_count, block_of, block_count};
ghost use Rattle.clone_snapshot.specs.declared.sizes.TheConstants.{CHUNK_PAGES};

use crate::span::Span;
use crate::{CHUNK_PAGES, PageBlock};
use clone_base::BLOCK_PAGES;

// A chunk of files: the pages of a space that have these numbers.
#[derive(Drop)]
struct FileChunk {
    space: u32,
    pages: Span,
}

/// How many chunks FILE COPY has over these spaces, each with its number of pages.
pub fn file_chunks(spaces: &[(u32, u32)]) -> u32
    requires { chunk_count (Files spaces.now) < 2 ^ 32 }
    ensures { result ≡ chunk_count (Files spaces.now) }
{
    spaces
        .iter()
        .map(|(_, pages)| pages.div_ceil(CHUNK_PAGES))
        .sum()
}

/// The pages of a block of FILE COPY over these spaces, each with its number of pages. None comes
/// exactly where they have no such chunk, or this no such block.
pub fn block_of_files(spaces: &[(u32, u32)], chunk: u32, block: u8) -> Option<PageBlock>
    ensures { option_map (λ pages. PagePart pages) result ≡
        block_of (Files spaces.now) chunk block }
{
    let chunk = file_chunk(spaces, chunk)?;
    let numbers = chunk.pages.piece(BLOCK_PAGES as u32, block as u32)?;
    Some(PageBlock::run(chunk.space, numbers))
}

/// How many blocks a chunk of files has, or 0 where there is no such chunk.
pub(crate) fn blocks_of_files(spaces: &[(u32, u32)], chunk: u32) -> u64
    ensures { result ≡ block_count (Files spaces.now) chunk }
{
    match file_chunk(spaces, chunk) {
        Some(chunk) => chunk.pages.count.div_ceil(BLOCK_PAGES as u64),
        None => 0,
    }
}

// The chunk with this number. Chunks are numbered over the spaces in their order.
fn file_chunk(spaces: &[(u32, u32)], chunk: u32) -> Option<FileChunk>
    ensures chunk { option_map (λ c. PagePart (run c.space c.pages.first c.pages.count)) result ≡
        slice_get (chunks_of (Files spaces.now)) chunk }
    ensures range { IfSome result (λ c. c.pages.first + c.pages.count < 2 ^ 32) }
{
    let mut ahead = chunk;
    for (space, pages) in spaces {
        let chunks = pages.div_ceil(CHUNK_PAGES);
        if ahead < chunks {
            return chunk_of_space(*space, *pages, ahead);
        }
        ahead -= chunks;
    }
    None
}

// The chunk of one space with this number.
fn chunk_of_space(space: u32, pages: u32, chunk: u32) -> Option<FileChunk>
    ensures chunk { option_map (λ c. PagePart (run c.space c.pages.first c.pages.count)) result ≡
        slice_get (cut CHUNK_PAGES (PagePart (run space 0 pages))) chunk }
    ensures range { IfSome result (λ c. c.pages.first + c.pages.count < 2 ^ 32) }
{
    let whole = Span {
        first: 0,
        count: pages as u64,
    };
    let pages = whole.piece(CHUNK_PAGES, chunk)?;
    Some(FileChunk { space, pages })
}
