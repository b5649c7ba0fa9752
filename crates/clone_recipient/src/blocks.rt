//! Whether pages or redo are those of a block.
ghost use Rattle.std.specs.Prelude.{◌≡◌, ◌<◌, ◌≤◌, ◌-◌, ◌*◌, ◌^◌, min};
ghost use Rattle.clone_snapshot.specs.StageLists.{Files, Redo, block_of};
ghost use Rattle.clone_marks.specs.Counts.{counted_pages};
ghost use Rattle.clone_recipient.specs.Expecting.{are_at, are_pages, are_pages_of, is_at, is_page};
ghost use Rattle.clone_recipient.specs.Expecting.{place_of, size_at};

use crate::MOST_SPACE;
use clone_base::{BLOCK_BYTES, BLOCK_PAGES};
use clone_model::MOST_PAGES;
use clone_page::PageAt;
use clone_snapshot::{CHUNK_BYTES, CHUNK_PAGES, block_of_files};

/// Whether pages are those of a block of these files, each with its number of pages.
pub(crate) fn are_pages_of(files: &[(u32, u32)], chunk: u32, block: u8, pages: &[PageAt]) -> bool
    ensures { result ≡ are_pages_of (block_of (Files files.now) chunk block) pages.now }
{
    match block_of_files(files, chunk, block) {
        Some(places) => are_at(places.as_slice(), pages),
        None => false,
    }
}

// Whether pages have these places, in their order.
fn are_at(places: &[(u32, u32)], pages: &[PageAt]) -> bool
    ensures { result ≡ are_at places.now pages.now }
{
    if places.len() != pages.len() {
        return false;
    }
    for index in 0..pages.len() {
        if !is_at(places[index], &pages[index]) {
            return false;
        }
    }
    true
}

// Whether a page has this place.
fn is_at(place: (u32, u32), page: &PageAt) -> bool
    ensures { result ≡ is_at place page.now }
{
    page.space == place.0 && page.number == place.1
}

/// Whether pages ascend, and each may be one of a space.
pub(crate) fn are_pages(pages: &[PageAt]) -> bool
    ensures { result ≡ are_pages 0 pages.now }
{
    let mut least = 0;
    for page in pages {
        if !is_page(least, page) {
            return false;
        }
        least = place_of(page) + 1;
    }
    true
}

// Whether a page may be one of a space, and its place isn't below the least.
fn is_page(least: u64, page: &PageAt) -> bool
    ensures { result ≡ is_page least page.now }
{
    least <= place_of(page) && page.space <= MOST_SPACE && page.number < MOST_PAGES
}

// Where a page is among those of all spaces.
fn place_of(page: &PageAt) -> u64
    ensures value { result ≡ place_of page.now }
    ensures low { result < 2 ^ 49 }
{
    MOST_PAGES as u64 * page.space as u64 + page.number as u64
}

/// How many pages a block of PAGE COPY has, 0 where there is no such block.
pub(crate) fn pages_at(pages: u32, chunk: u32, block: u8) -> u64
    ensures { result ≡ size_at (counted_pages pages) chunk block }
{
    size_in(pages as u64, CHUNK_PAGES, BLOCK_PAGES as u32, chunk, block)
}

/// How many bytes a block of redo has, 0 where there is no such block.
pub(crate) fn bytes_at(checkpoint: u64, lsn: u64, chunk: u32, block: u8) -> u64
    requires { checkpoint ≤ lsn }
    ensures { result ≡ size_at (Redo checkpoint lsn) chunk block }
{
    size_in(
        lsn - checkpoint,
        CHUNK_BYTES,
        BLOCK_BYTES as u32,
        chunk,
        block,
    )
}

// What a block has of so many pages or bytes, where a chunk and a block have so many.
fn size_in(units: u64, in_chunk: u32, in_block: u32, chunk: u32, block: u8) -> u64
    ensures { result ≡
        min in_block (min in_chunk (units - in_chunk * chunk) - in_block * block) }
{
    let left = units.saturating_sub(in_chunk as u64 * chunk as u64);
    let here = left.min(in_chunk as u64);
    here.saturating_sub(in_block as u64 * block as u64)
        .min(in_block as u64)
}
