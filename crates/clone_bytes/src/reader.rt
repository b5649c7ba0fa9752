//! Fields of fixed width at the front of bytes. A number of 1, 2, 4 or 8 bytes has its highest
//! byte first. What was read is behind the reader, and it holds what is left.
ghost use Rattle.std.specs.Prelude.{◌≡◌, length, take};
ghost use Rattle.byteorder.specs.Endian.{big_number};
ghost use Rattle.clone_bytes.specs.Fields.{Reads};

use byteorder::{BigEndian, ByteOrder};
use std::marker::Model;

/// Fewer bytes are left than a field has.
#[derive(Clone, Copy, Debug, PartialEq, Eq)]
pub struct Short {
    /// How many bytes the field has.
    pub need: usize,
    /// How many bytes are left.
    pub have: usize,
}

/// An offset in bytes, from which fields are read one after the other. It is seen as the bytes that
/// are left.
#[derive(Drop)]
pub struct Reader<'a> {
    left: &'a [u8],
}

impl<'a> Model for Reader<'a> {
    ghost use Rattle.std.specs.Prelude.{List, ℕ};

    ghost Value = { List ℕ };

    ghost view = { λ r. r.left.now };
}

impl<'a> Reader<'a> {
    /// All of these bytes are left.
    pub fn new(bytes: &'a [u8]) -> Reader<'a>
        ensures { result ≡ bytes.now }
    {
        Reader { left: bytes }
    }

    /// How many bytes are left.
    pub fn left(&self) -> usize
        ensures { result ≡ length self.now }
    {
        self.left.len()
    }

    /// The bytes that are left.
    pub fn rest(&self) -> &'a [u8]
        ensures { result.now ≡ self.now }
    {
        self.left
    }

    /// The next byte. `Short` comes exactly where none is left, and the reader is unchanged then.
    pub fn u8(&mut self) -> Result<u8, Short>
        ensures { Reads (λ x. x ≡ big_number 1 self.old) 1 self.old self.new result }
    {
        Ok(self.take(1)?[0])
    }

    /// The number in the next two bytes. `Short` comes exactly where fewer are left, and the reader
    /// is unchanged then.
    pub fn u16(&mut self) -> Result<u16, Short>
        ensures { Reads (λ x. x ≡ big_number 2 self.old) 2 self.old self.new result }
    {
        Ok(BigEndian::read_u16(self.take(2)?))
    }

    /// The number in the next four bytes. `Short` comes exactly where fewer are left, and the
    /// reader is unchanged then.
    pub fn u32(&mut self) -> Result<u32, Short>
        ensures { Reads (λ x. x ≡ big_number 4 self.old) 4 self.old self.new result }
    {
        Ok(BigEndian::read_u32(self.take(4)?))
    }

    /// The number in the next eight bytes. `Short` comes exactly where fewer are left, and the
    /// reader is unchanged then.
    pub fn u64(&mut self) -> Result<u64, Short>
        ensures { Reads (λ x. x ≡ big_number 8 self.old) 8 self.old self.new result }
    {
        Ok(BigEndian::read_u64(self.take(8)?))
    }

    /// The next `n` bytes. `Short` comes exactly where fewer are left, and the reader is unchanged
    /// then.
    pub fn take(&mut self, n: usize) -> Result<&'a [u8], Short>
        ensures { Reads (λ x. x.now ≡ take n self.old) n self.old self.new result }
    {
        match self.left.split_at_checked(n) {
            Some((front, rest)) => {
                self.left = rest;
                Ok(front)
            }
            None => Err(Short {
                need: n,
                have: self.left.len(),
            }),
        }
    }
}
