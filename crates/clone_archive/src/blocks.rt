//! Bytes in blocks of 16,384, as many as a block of a clone has. Every block has its whole size, and the bytes are the first `len` of
//! all blocks together, so that byte i stands in block i / 16,384 at i mod 16,384. There is room
//! for all of them; the room is at most 2^39 bytes.
ghost use Rattle.std.specs.Prelude.{◌≡◌, ◌≤◌, ◌<◌, ◌+◌, ◌-◌, ◌++◌, [], length, take, drop};
ghost use Rattle.std.specs.Prelude.{OnOk, OnErr};
ghost use Rattle.clone_base.specs.declared.limits.TheConstants.{BLOCK_BYTES, LSN_LIMIT};
ghost use Rattle.clone_ring.specs.Window.{end_of};

use clone_base::{BLOCK_BYTES, LSN_LIMIT};
use clone_ring::Ring;
use std::alloc::{AllocError, Global};
use std::marker::Model;

// The bytes stand in a list of blocks of one size, each of which is made once and never moved. All
// but the last that are in use are full; what stands behind the last byte is room.

/// A list of bytes that grows at its end. Contracts see it as the bytes, and as how many there is
/// room for.
#[derive(Drop)]
pub(crate) struct Blocks {
    blocks: Vec<Vec<u8>>,
    len: usize,
}

impl Model for Blocks {
    ghost use Rattle.clone_archive.specs.BlockList.{BlockBytes, AreBlocks, bytes_in, room_in};

    ghost Value = { BlockBytes };

    ghost view = { λ b. record {
      bytes = bytes_in b.blocks.items b.len;
      room = room_in b.blocks.items;
    } };

    ghost invariant = { λ b. AreBlocks b.blocks.items b.len };
}

impl Blocks {
    /// No bytes, and no memory is taken.
    pub(crate) fn new(alloc: Global) -> Blocks
        ensures { result.bytes ≡ [] }
    {
        Blocks {
            blocks: Vec::new(alloc),
            len: 0,
        }
    }

    /// How many bytes there are.
    pub(crate) fn len(&self) -> usize
        ensures { result ≡ length self.now.bytes }
    {
        self.len
    }

    /// Lets all bytes go, and the memory of the blocks.
    pub(crate) fn clear(&mut self)
        ensures { self.new.bytes ≡ [] }
    {
        self.blocks.clear();
        self.len = 0;
    }

    /// Puts bytes of the ring behind the others, from an LSN up to another. The blocks that this
    /// takes are made before any byte is copied.
    pub(crate) fn append(&mut self, ring: &Ring, from: u64, until: u64) -> Result<(), AllocError>
        requires above { ring.now.floor ≤ from }
        requires ordered { from ≤ until }
        requires within { until ≤ end_of ring.now }
        requires below { length self.old.bytes + (until - from) < LSN_LIMIT }
        ensures appended { OnOk result (self.new.bytes
            ≡ self.old.bytes ++ take (until - from) (drop (from - ring.now.floor) ring.now.bytes)) }
        ensures unchanged { OnErr result (self.new.bytes ≡ self.old.bytes) }
    {
        self.reserve((until - from) as usize)?;
        let mut at = from;
        while at < until {
            at += self.append_piece(ring, at, (until - at) as usize) as u64;
        }
        Ok(())
    }

    /// Fills the slice with the bytes from an offset on.
    pub(crate) fn read(&self, at: usize, into: &mut [u8])
        requires { at + length into.old ≤ length self.now.bytes }
        ensures { into.new ≡ take (length into.old) (drop at self.now.bytes) }
    {
        let _ = &self.len;
        let mut done = 0;
        while done < into.len() {
            done += self.read_piece(at + done, &mut into[done..]);
        }
    }

    // How many bytes there is room for.
    fn room(&self) -> usize
        ensures { result ≡ self.now.room }
    {
        self.blocks.len() * BLOCK_BYTES
    }

    // Makes room for so many more bytes.
    fn reserve(&mut self, count: usize) -> Result<(), AllocError>
        requires { length self.old.bytes + count < LSN_LIMIT }
        ensures bytes { self.new.bytes ≡ self.old.bytes }
        ensures room { OnOk result (length self.old.bytes + count ≤ self.new.room) }
    {
        let wanted = self.len() + count;
        while self.room() < wanted {
            self.add_block()?;
        }
        Ok(())
    }

    // Makes room for one more block.
    fn add_block(&mut self) -> Result<(), AllocError>
        requires { self.old.room < LSN_LIMIT }
        ensures bytes { self.new.bytes ≡ self.old.bytes }
        ensures room { OnOk result (self.new.room ≡ self.old.room + BLOCK_BYTES) }
    {
        let alloc = *self.blocks.allocator();
        self.blocks.push(vec![in alloc; 0; BLOCK_BYTES]?)?;
        Ok(())
    }

    // Puts bytes of the ring behind the others, as many of these as one block has room for, and
    // answers how many.
    fn append_piece(&mut self, ring: &Ring, from: u64, limit: usize) -> usize
        requires above { ring.now.floor ≤ from }
        requires within { from + limit ≤ end_of ring.now }
        requires room { length self.old.bytes + limit ≤ self.old.room }
        requires some { 0 < limit }
        ensures more { 0 < result }
        ensures within { result ≤ limit }
        ensures appended { self.new.bytes
            ≡ self.old.bytes ++ take result (drop (from - ring.now.floor) ring.now.bytes) }
        ensures room { self.new.room ≡ self.old.room }
    {
        let at = self.len % BLOCK_BYTES;
        let count = limit.min(BLOCK_BYTES - at);
        let block = &mut self.blocks[self.len / BLOCK_BYTES];
        ring.read(from, &mut block[at..at + count]);
        self.len += count;
        count
    }

    // Fills a front of the slice with the bytes from an offset on, as far as one block has them,
    // and answers how many.
    fn read_piece(&self, from: usize, into: &mut [u8]) -> usize
        requires within { from + length into.old ≤ length self.now.bytes }
        requires some { 0 < length into.old }
        ensures more { 0 < result }
        ensures within { result ≤ length into.old }
        ensures filled { into.new ≡ take result (drop from self.now.bytes) ++ drop result into.old }
    {
        let at = from % BLOCK_BYTES;
        let count = into.len().min(BLOCK_BYTES - at);
        let block = &self.blocks[from / BLOCK_BYTES];
        into[..count].copy_from_slice(&block[at..at + count]);
        count
    }
}
