//! Numbers and pieces at an offset of some bytes. Numbers are big-endian.
ghost use Rattle.std.specs.Prelude.{◌≡◌, ◌≤◌, ◌+◌, length};
ghost use Rattle.clone_page.specs.Bytes.{put_at, field};

use byteorder::{BigEndian, ByteOrder};

/// The number of one byte at an offset.
pub fn u8_at(bytes: &[u8], at: usize) -> u8
    requires { at + 1 ≤ length bytes.now }
    ensures { result ≡ field at 1 bytes.now }
{
    bytes[at]
}

/// The number of two bytes from an offset on.
pub fn u16_at(bytes: &[u8], at: usize) -> u16
    requires { at + 2 ≤ length bytes.now }
    ensures { result ≡ field at 2 bytes.now }
{
    BigEndian::read_u16(&bytes[at..at + 2])
}

/// The number of four bytes from an offset on.
pub fn u32_at(bytes: &[u8], at: usize) -> u32
    requires { at + 4 ≤ length bytes.now }
    ensures { result ≡ field at 4 bytes.now }
{
    BigEndian::read_u32(&bytes[at..at + 4])
}

/// The number of eight bytes from an offset on.
pub fn u64_at(bytes: &[u8], at: usize) -> u64
    requires { at + 8 ≤ length bytes.now }
    ensures { result ≡ field at 8 bytes.now }
{
    BigEndian::read_u64(&bytes[at..at + 8])
}

/// Writes a piece from an offset on. All other bytes stay.
pub fn put(bytes: &mut [u8], at: usize, piece: &[u8])
    requires { at + length piece.now ≤ length bytes.old }
    ensures { bytes.new ≡ put_at at piece.now bytes.old }
{
    bytes[at..at + piece.len()].copy_from_slice(piece);
}
