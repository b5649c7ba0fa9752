//! A mask has a bit for each of a chunk's blocks, of which there are at most 8. Bit b, of value
//! 2^b, is block b.
ghost use Rattle.std.specs.Prelude.{◌≡◌, ◌≤◌};
ghost use Rattle.clone_chunk.specs.Chunks.{is_kept, is_whole, within};
ghost use Rattle.clone_chunk.specs.declared.masks.TheConstants.{CHUNK_BLOCKS};

/// How many blocks a chunk has at most.
pub const CHUNK_BLOCKS: u8 = 8;

/// Whether a block is in a mask.
pub fn is_kept(mask: u8, block: u8) -> bool
    ensures { result ≡ is_kept mask block }
{
    block < CHUNK_BLOCKS && mask >> block & 1 == 1
}

/// What is left of a mask for a chunk that has so many blocks.
pub(crate) fn within(mask: u8, blocks: u8) -> u8
    requires { blocks ≤ CHUNK_BLOCKS }
    ensures { result ≡ within mask blocks }
{
    (mask as u16 % (1 << blocks)) as u8
}

/// Whether a mask has each of so many blocks.
pub(crate) fn is_whole(mask: u8, blocks: u8) -> bool
    requires { blocks ≤ CHUNK_BLOCKS }
    ensures { result ≡ is_whole mask blocks }
{
    within(mask, blocks) as u16 + 1 == 1 << blocks
}
