//! A bit for each of at most 8,388,608 chunks. Chunk i has bit i mod 8 of byte i / 8, the lowest
//! first. There are as many bytes as the bits need and no more, and the bits past the count are 0.
ghost use Rattle.std.specs.Prelude.{◌≡◌, ◌≢◌, ◌<◌, ◌≤◌, ℕ, true, false, length, IfOk};
ghost use Rattle.clone_chunk.specs.Chunks.{has_bit};
ghost use Rattle.clone_chunk.specs.Bitmaps.{Bits, IsBitmap, ends_at};
ghost use Rattle.clone_chunk.specs.declared.bitmap.TheConstants.{MOST_CHUNKS};

use std::alloc::{AllocError, Global};
use std::marker::Model;

/// How many chunks a bitmap may have.
pub const MOST_CHUNKS: u32 = 8_388_608;

/// A bit for each of at most 8,388,608 chunks. Bit i stands in byte i/8 with the value 2^(i mod 8),
/// and the bits past the count are 0.
#[derive(Drop)]
pub struct Bitmap {
    count: u32,
    bytes: Vec<u8>,
}

impl Model for Bitmap {
    ghost use Rattle.clone_chunk.specs.Bitmaps.{Bits, IsBitmap};

    ghost Value = { Bits };

    ghost view = { λ b. record { count = b.count; bytes = b.bytes.items } };

    ghost invariant = { λ b. IsBitmap b.count b.bytes.items };
}

impl Bitmap {
    /// A bitmap of so many chunks, none of whose bits is set.
    pub fn new(alloc: Global, count: u32) -> Result<Bitmap, AllocError>
        requires { count ≤ MOST_CHUNKS }
        ensures count { IfOk result (λ map. map.count ≡ count) }
        ensures unset { IfOk result (λ map. (i : ℕ) → has_bit map.bytes i ≡ false) }
    {
        let long = (count as usize).div_ceil(8);
        let mut bytes = Vec::with_capacity(alloc, long)?;
        bytes.resize(long, 0)?;
        Ok(Bitmap { count, bytes })
    }

    /// The bitmap of so many chunks that these bytes are.
    pub fn from_bytes(alloc: Global, count: u32, bytes: &[u8]) -> Result<Bitmap, AllocError>
        requires { IsBitmap count bytes.now }
        ensures { IfOk result (λ map. map ≡ record { count = count; bytes = bytes.now }) }
    {
        Ok(Bitmap {
            count,
            bytes: Vec::from_slice(alloc, bytes)?,
        })
    }

    /// How many chunks it has a bit for.
    pub fn count(&self) -> u32
        ensures { result ≡ self.now.count }
    {
        self.count
    }

    /// Sets the bit of a chunk, and no other.
    pub fn set(&mut self, chunk: u32)
        requires { chunk < self.old.count }
        ensures count { self.new.count ≡ self.old.count }
        ensures set { has_bit self.new.bytes chunk ≡ true }
        ensures others { (i : ℕ) → i ≢ chunk →
            has_bit self.new.bytes i ≡ has_bit self.old.bytes i }
    {
        self.bytes[chunk as usize / 8] |= 1 << (chunk % 8);
    }

    /// Its bytes.
    pub fn bytes(&self) -> &[u8]
        ensures value { result.now ≡ self.now.bytes }
        ensures bits { IsBitmap self.now.count self.now.bytes }
    {
        &self.bytes
    }
}

/// Whether no bit from the count on is set in the last of the bytes, in which the count's last bit
/// is.
pub fn ends_at(count: u32, bytes: &[u8]) -> bool
    requires { Rattle.clone_chunk.specs.Bitmaps.HasLength count bytes.now }
    ensures { result ≡ ends_at count bytes.now }
{
    let Some(last) = bytes.last() else {
        return true;
    };
    let bits = count as usize - 8 * (bytes.len() - 1);
    (*last as u32) < 1 << bits
}
