ghost use Rattle.std.specs.Prelude.{◌≡◌, ◌≤◌};
ghost use Rattle.clone_chunk.specs.declared.masks.TheConstants.{CHUNK_BLOCKS};
ghost use Rattle.clone_snapshot.specs.StageLists.{block_count};
ghost use Rattle.clone_snapshot.specs.Snaps.{IsInLog, list_of};

use crate::files::blocks_of_files;
use crate::pages::blocks_of_pages;
use crate::redo::blocks_of_redo;

/// What a stage copies.
#[derive(Drop)]
pub(crate) enum Listing {
    /// Spaces, each with its number of pages.
    Files(Vec<(u32, u32)>),
    /// Pages, each as its space and its number there.
    Pages(Vec<(u32, u32)>),
    /// The bytes of the log from one LSN up to another.
    Redo { start: u64, end: u64 },
    Nothing,
}

impl Listing {
    /// How many blocks a chunk has, or 0 where there is no such chunk.
    pub(crate) fn blocks(&self, chunk: u32) -> u8
        requires { IsInLog (list_of self.now) }
        ensures count { result ≡ block_count (list_of self.now) chunk }
        ensures few { result ≤ CHUNK_BLOCKS }
    {
        self.count(chunk) as u8
    }

    // The same before it is known that there are few.
    fn count(&self, chunk: u32) -> u64
        requires { IsInLog (list_of self.now) }
        ensures { result ≡ block_count (list_of self.now) chunk }
    {
        match self {
            Listing::Files(spaces) => blocks_of_files(spaces, chunk),
            Listing::Pages(pages) => blocks_of_pages(pages, chunk),
            Listing::Redo { start, end } => blocks_of_redo(*start, *end, chunk),
            Listing::Nothing => 0,
        }
    }
}
