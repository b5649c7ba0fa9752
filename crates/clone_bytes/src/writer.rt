//! Fields of fixed width, one behind the other. A number of 1, 2, 4 or 8 bytes has its highest
//! byte first, and nothing stands between two fields.
ghost use Rattle.std.specs.Prelude.{◌≡◌, ◌++◌, ◌∷◌, [], OnOk, OnErr};
ghost use Rattle.byteorder.specs.Endian.{big_bytes};

use byteorder::{BigEndian, ByteOrder};
use std::alloc::{AllocError, Global};
use std::marker::Model;

/// Bytes that are written one field after the other. It is seen as the bytes that it holds.
#[derive(Drop)]
pub struct Writer {
    held: Vec<u8>,
}

impl Model for Writer {
    ghost use Rattle.std.specs.Prelude.{List, ℕ};

    ghost Value = { List ℕ };

    ghost view = { λ w. w.held.items };
}

impl Writer {
    /// No bytes yet.
    pub fn new(alloc: Global) -> Writer
        ensures { result ≡ [] }
    {
        Writer {
            held: Vec::new(alloc),
        }
    }

    /// Appends a byte, or nothing where there is no memory.
    pub fn u8(&mut self, n: u8) -> Result<(), AllocError>
        ensures ok { OnOk result (self.new ≡ self.old ++ big_bytes 1 n) }
        ensures err { OnErr result (self.new ≡ self.old) }
    {
        self.bytes(&[n])
    }

    /// Appends the two bytes of a number, or nothing where there is no memory.
    pub fn u16(&mut self, n: u16) -> Result<(), AllocError>
        ensures ok { OnOk result (self.new ≡ self.old ++ big_bytes 2 n) }
        ensures err { OnErr result (self.new ≡ self.old) }
    {
        let mut bytes = [0; 2];
        BigEndian::write_u16(&mut bytes, n);
        self.bytes(&bytes)
    }

    /// Appends the four bytes of a number, or nothing where there is no memory.
    pub fn u32(&mut self, n: u32) -> Result<(), AllocError>
        ensures ok { OnOk result (self.new ≡ self.old ++ big_bytes 4 n) }
        ensures err { OnErr result (self.new ≡ self.old) }
    {
        let mut bytes = [0; 4];
        BigEndian::write_u32(&mut bytes, n);
        self.bytes(&bytes)
    }

    /// Appends the eight bytes of a number, or nothing where there is no memory.
    pub fn u64(&mut self, n: u64) -> Result<(), AllocError>
        ensures ok { OnOk result (self.new ≡ self.old ++ big_bytes 8 n) }
        ensures err { OnErr result (self.new ≡ self.old) }
    {
        let mut bytes = [0; 8];
        BigEndian::write_u64(&mut bytes, n);
        self.bytes(&bytes)
    }

    /// Appends these bytes, or nothing where there is no memory.
    pub fn bytes(&mut self, from: &[u8]) -> Result<(), AllocError>
        ensures ok { OnOk result (self.new ≡ self.old ++ from.now) }
        ensures err { OnErr result (self.new ≡ self.old) }
    {
        self.held.extend_from_slice(from)
    }

    /// The bytes.
    pub fn into_bytes(self) -> Vec<u8>
        ensures { result.items ≡ self }
    {
        let Writer { held } = self;
        held
    }
}
