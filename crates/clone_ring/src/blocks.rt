//! Bytes in a row of blocks of 4,096, the last of which may be shorter. Byte i stands in block
//! i / 4,096 at i mod 4,096. All blocks are made with the row, empty, and never moved; a block gets
//! a byte once all blocks before it are full. So no memory is written before the bytes that it
//! gets.
ghost use Rattle.std.specs.Prelude.{◌≡◌, ◌≤◌, ◌<◌, ◌+◌, ◌++◌, [], length, take, drop, IfOk};
ghost use Rattle.clone_ring.specs.Row.{written};

use std::alloc::{AllocError, Global};
use std::marker::Model;

const RING_BLOCK: usize = 4_096;

/// A row of bytes that has its whole room from the start. Contracts see the bytes that were written
/// so far, each at its place in the row, and how many there may be.
#[derive(Drop)]
pub(crate) struct Blocks {
    blocks: Vec<Vec<u8>>,
    size: usize,
}

impl Model for Blocks {
    ghost use Rattle.clone_ring.specs.Row.{Row, IsRow, joined};

    ghost Value = { Row };

    ghost view = { λ b. record { bytes = joined b.blocks.items; size = b.size } };

    ghost invariant = { λ b. IsRow b.blocks.items b.size };
}

impl Blocks {
    /// No bytes, and room for so many.
    pub(crate) fn new(alloc: Global, size: usize) -> Result<Blocks, AllocError>
        ensures { IfOk result (λ row. row ≡ record { bytes = []; size = size }) }
    {
        let mut blocks = Vec::new(alloc);
        let mut made = 0;
        while made < size {
            let room = RING_BLOCK.min(size - made);
            blocks.push(Vec::with_capacity(alloc, room)?)?;
            made += room;
        }
        Ok(Blocks { blocks, size })
    }

    /// How many bytes there may be.
    pub(crate) fn size(&self) -> usize
        ensures value { result ≡ self.now.size }
        ensures room { length self.now.bytes ≤ result }
    {
        let _ = &self.blocks;
        self.size
    }

    /// Writes a front of the bytes from a place on, either over bytes of one block or behind them,
    /// and answers how many. No memory is taken.
    pub(crate) fn write_piece(&mut self, at: usize, bytes: &[u8]) -> usize
        requires behind { at ≤ length self.old.bytes }
        requires room { at + length bytes.now ≤ self.old.size }
        requires some { 0 < length bytes.now }
        ensures more { 0 < result }
        ensures within { result ≤ length bytes.now }
        ensures bytes { self.new.bytes ≡ written at (take result bytes.now) self.old.bytes }
        ensures size { self.new.size ≡ self.old.size }
    {
        let from = at % RING_BLOCK;
        let block = &mut self.blocks[at / RING_BLOCK];
        if from < block.len() {
            let count = bytes.len().min(block.len() - from);
            block[from..from + count].copy_from_slice(&bytes[..count]);
            return count;
        }
        let count = bytes.len().min(RING_BLOCK - from);
        let appended = block.extend_from_slice(&bytes[..count]);
        prove!(appended.is_ok());
        count
    }

    /// Fills a front of the slice with the bytes from a place on, as far as one block has them, and
    /// answers how many.
    pub(crate) fn read_piece(&self, at: usize, into: &mut [u8]) -> usize
        requires within { at + length into.old ≤ length self.now.bytes }
        requires some { 0 < length into.old }
        ensures more { 0 < result }
        ensures within { result ≤ length into.old }
        ensures filled { into.new ≡ take result (drop at self.now.bytes) ++ drop result into.old }
    {
        let from = at % RING_BLOCK;
        let count = into.len().min(RING_BLOCK - from);
        let block = &self.blocks[at / RING_BLOCK];
        into[..count].copy_from_slice(&block[from..from + count]);
        count
    }
}
