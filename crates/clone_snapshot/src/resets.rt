ghost use Rattle.std.specs.Prelude.{◌≡◌, ◌↔◌, ◌≤◌, ◌<◌, ℕ, length, true, IsTrue};
ghost use Rattle.clone_chunk.specs.Chunks.{is_kept};
ghost use Rattle.clone_chunk.specs.Partials.{ArePartials};
ghost use Rattle.clone_snapshot.specs.StageLists.{chunk_count};
ghost use Rattle.clone_snapshot.specs.Snaps.{IsInLog, list_of};
ghost use Rattle.clone_snapshot.specs.Resets.{IsReset};

use crate::listing::Listing;
use clone_chunk::{ChunkMap, PartialChunk, is_kept};

/// Resets the chunks of a list to what a requester has: the chunks that have their bit, and the
/// blocks in the masks.
pub(crate) fn reset(chunks: &mut ChunkMap, list: &Listing, bitmap: &[u8], partials: &[PartialChunk])
    requires log { IsInLog (list_of list.now) }
    requires count { length chunks.old.states ≡ chunk_count (list_of list.now) }
    requires partials { ArePartials partials.now }
    ensures reset { IsReset (list_of list.now) bitmap.now partials.now chunks.new.states
        chunks.new.kept }
    ensures room { chunks.new.room ≡ chunks.old.room }
{
    chunks.reset_to(bitmap);
    for partial in partials {
        chunks.keep(partial.chunk, partial.mask, list.blocks(partial.chunk));
    }
}

/// Whether each block from one up to another is in a mask.
pub(crate) fn all_kept(mask: u8, from: u8, until: u8) -> bool
    ensures { IsTrue result ↔ ((b : ℕ) → from ≤ b → b < until → is_kept mask b ≡ true) }
{
    for block in from..until {
        if !is_kept(mask, block) {
            return false;
        }
    }
    true
}
