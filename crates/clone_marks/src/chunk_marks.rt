ghost use Rattle.std.specs.Prelude.{◌≡◌, ◌≤◌, ◌<◌};
ghost use Rattle.clone_marks.specs.Blocks.{IsChunk, full, has_block, lacks_block, is_finished};
ghost use Rattle.clone_marks.specs.Blocks.{is_partial, with_block};
ghost use Rattle.clone_marks.specs.Forgetting.{left_of, kept_after};

/// A chunk: how many blocks it has, and which of them were taken.
#[derive(Clone, Copy)]
pub struct ChunkMarks {
    /// How many blocks it has, from 1 to 8.
    pub blocks: u8,
    /// The blocks that were taken: block b where the bit of value 2^b is set.
    pub taken: u8,
}

impl ChunkMarks {
    /// Whether a block was taken.
    pub(crate) fn has(self, block: u8) -> bool
        requires { IsChunk self }
        ensures { result ≡ has_block block self }
    {
        block < self.blocks && self.taken >> block & 1 == 1
    }

    /// Whether it has such a block that wasn't taken.
    pub(crate) fn lacks(self, block: u8) -> bool
        requires { IsChunk self }
        ensures { result ≡ lacks_block block self }
    {
        block < self.blocks && !self.has(block)
    }

    /// Whether each block was taken.
    pub(crate) fn is_finished(self) -> bool
        requires { IsChunk self }
        ensures { result ≡ is_finished self }
    {
        self.taken == full(self.blocks)
    }

    /// Whether some blocks were taken, and some weren't.
    pub(crate) fn is_partial(self) -> bool
        requires { IsChunk self }
        ensures { result ≡ is_partial self }
    {
        self.taken != 0 && !self.is_finished()
    }

    /// The chunk with one more block.
    pub(crate) fn with(self, block: u8) -> ChunkMarks
        requires { block < 8 }
        ensures { result ≡ with_block self block }
    {
        ChunkMarks {
            blocks: self.blocks,
            taken: self.taken | 1 << block,
        }
    }

    /// The chunk after a loss, where so many partial chunks may keep their blocks; and how many
    /// after this one may.
    pub(crate) fn left(self, kept: usize) -> (ChunkMarks, usize)
        requires { IsChunk self }
        ensures chunk { result.0 ≡ left_of kept self }
        ensures kept { result.1 ≡ kept_after kept self }
    {
        if !self.is_partial() {
            return (self, kept);
        }
        if kept > 0 {
            return (self, kept - 1);
        }
        let emptied = ChunkMarks {
            blocks: self.blocks,
            taken: 0,
        };
        (emptied, 0)
    }
}

// The mask of so many blocks.
fn full(blocks: u8) -> u8
    requires { blocks ≤ 8 }
    ensures { result ≡ full blocks }
{
    ((1u16 << blocks) - 1) as u8
}
