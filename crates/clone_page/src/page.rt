//! A page in memory: 4,096 bytes, laid out as `layout` says. A well-formed page has the constant
//! in the place of both checksums, its own number and space, one of the four kinds, and in its
//! trailer the low 32 bits of its LSN.
ghost use Rattle.std.specs.Prelude.{◌≡◌, ◌↔◌, ◌≤◌, ◌+◌, ◌⊎◌, length, IsTrue};
ghost use Rattle.byteorder.specs.Endian.{big_bytes};
ghost use Rattle.clone_page.specs.Bytes.{put_at, field};
ghost use Rattle.clone_page.specs.Header.{zero_page, number_of, next_of, lsn_of, kind_of, space_of, with_lsn, initialised, checksum, header, trailer, IsAllowed, IsWellFormed};

use crate::PageKind;
use crate::bytes::{u16_at, u32_at, u64_at};
use crate::layout::{
    BODY_AT, CHECKSUM, END_LSN_AT, KIND_AT, LSN_AT, NEXT_AT, NO_PAGE, NUMBER_AT, PREVIOUS_AT,
    SPACE_AT, TRAILER_AT,
};
use byteorder::{BigEndian, ByteOrder};
use clone_base::PAGE_SIZE;
use std::marker::Model;

/// A page. Contracts see it as its 4,096 bytes.
#[derive(Drop)]
pub struct Page {
    bytes: [u8; PAGE_SIZE],
}

impl Model for Page {
    ghost use Rattle.std.specs.Prelude.{List, ℕ};

    ghost Value = { List ℕ };

    ghost view = { λ p. p.bytes };
}

impl Page {
    ghost use Rattle.std.specs.Borrow.{Lends, Array, sem, u8};
    ghost use Rattle.clone_page.specs.contracts.page.Page.{the_row};

    /// An unused page.
    pub fn zero() -> Page
        ensures { result ≡ zero_page }
    {
        Page {
            bytes: [0; PAGE_SIZE],
        }
    }

    /// The page of these 4,096 bytes.
    pub fn from_bytes(bytes: &[u8]) -> Page
        requires { length bytes.now ≡ PAGE_SIZE }
        ensures { result ≡ bytes.now }
    {
        let mut page = Page::zero();
        page.bytes.copy_from_slice(bytes);
        page
    }

    /// Makes this a page of its space, with a body of zero bytes.
    pub fn init(&mut self, space: u32, number: u32, kind: PageKind, lsn: u64)
        ensures { self.new ≡ initialised space number kind lsn }
    {
        self.bytes[..BODY_AT].copy_from_slice(&header_of(space, number, kind, lsn));
        self.bytes[BODY_AT..TRAILER_AT].fill(0);
        self.bytes[TRAILER_AT..].copy_from_slice(&trailer_of(lsn));
    }

    /// The page's space.
    pub fn space(&self) -> u32
        ensures { result ≡ space_of self.now }
    {
        u32_at(&self.bytes, SPACE_AT)
    }

    /// The page's number within its space.
    pub fn number(&self) -> u32
        ensures { result ≡ number_of self.now }
    {
        u32_at(&self.bytes, NUMBER_AT)
    }

    /// The next page of the chain, or 0xFFFFFFFF at its end.
    pub fn next(&self) -> u32
        ensures { result ≡ next_of self.now }
    {
        u32_at(&self.bytes, NEXT_AT)
    }

    /// The end of the last mini-transaction that changed the page.
    pub fn lsn(&self) -> u64
        ensures { result ≡ lsn_of self.now }
    {
        u64_at(&self.bytes, LSN_AT)
    }

    /// The number of the page's kind, which is 0 for an unused page.
    pub fn kind(&self) -> u16
        ensures { result ≡ kind_of self.now }
    {
        u16_at(&self.bytes, KIND_AT)
    }

    /// Whether every byte is zero.
    pub fn is_zero(&self) -> bool
        ensures { IsTrue result ↔ (self.now ≡ zero_page) }
    {
        self.bytes == [0; PAGE_SIZE]
    }

    /// Sets the page LSN, and its low 32 bits in the trailer.
    pub fn set_lsn(&mut self, lsn: u64)
        ensures { self.new ≡ with_lsn lsn self.old }
    {
        let mut bytes = [0; 8];
        BigEndian::write_u64(&mut bytes, lsn);
        self.bytes[LSN_AT..LSN_AT + 8].copy_from_slice(&bytes);
        self.bytes[END_LSN_AT..].copy_from_slice(&bytes[4..]);
    }

    /// Writes bytes from an offset on.
    pub fn write_at(&mut self, offset: u16, bytes: &[u8])
        requires { IsAllowed offset (length bytes.now) }
        ensures { self.new ≡ put_at offset bytes.now self.old }
    {
        let at = offset as usize;
        self.bytes[at..at + bytes.len()].copy_from_slice(bytes);
    }

    /// Whether this may stand at this place of this space: an unused page, or one whose constants,
    /// number, space, kind and trailer agree.
    pub fn check(&self, space: u32, number: u32) -> bool
        ensures { IsTrue result ↔ ((self.now ≡ zero_page) ⊎ IsWellFormed space number self.now) }
    {
        self.is_zero() || self.is_well_formed(space, number)
    }

    // Whether the constants, number, space, kind and trailer agree.
    fn is_well_formed(&self, space: u32, number: u32) -> bool
        ensures { IsTrue result ↔ IsWellFormed space number self.now }
    {
        if self.has_constants() && self.stands_at(space, number) {
            self.is_used() && self.ends_with_lsn()
        } else {
            false
        }
    }

    // Whether both constants stand in the place of the checksums.
    fn has_constants(&self) -> bool
        ensures { IsTrue result ↔ (field 0 4 self.now ≡ checksum)
            × (field TRAILER_AT 4 self.now ≡ checksum) }
    {
        u32_at(&self.bytes, 0) == CHECKSUM && u32_at(&self.bytes, TRAILER_AT) == CHECKSUM
    }

    // Whether the trailer has the low 32 bits of the page LSN.
    fn ends_with_lsn(&self) -> bool
        ensures { IsTrue result ↔ (field END_LSN_AT 4 self.now ≡ field (LSN_AT + 4) 4 self.now) }
    {
        u32_at(&self.bytes, END_LSN_AT) == u32_at(&self.bytes, LSN_AT + 4)
    }

    // Whether the page names this place of this space.
    fn stands_at(&self, space: u32, number: u32) -> bool
        ensures { IsTrue result ↔ (number_of self.now ≡ number) × (space_of self.now ≡ space) }
    {
        self.number() == number && self.space() == space
    }

    // Whether the page is of a kind.
    fn is_used(&self) -> bool
        ensures { IsTrue result ↔ (1 ≤ kind_of self.now) × (kind_of self.now ≤ 4) }
    {
        let kind = self.kind();
        1 <= kind && kind <= 4
    }

    /// The page's bytes.
    pub fn bytes(&self) -> &[u8; PAGE_SIZE]
        ensures value { result.now ≡ self.now }
        ensures long { length self.now ≡ PAGE_SIZE }
    {
        &self.bytes
    }

    /// The page's bytes, to be read over.
    pub fn bytes_mut(&mut self) -> &mut [u8; PAGE_SIZE]
        ensures* { sem 𝓛 (Lends the_row (Array u8 PAGE_SIZE) self.entry result (λ bytes. bytes)) }
    {
        &mut self.bytes
    }
}

/// Whether a write may name these bytes of a page: at least one, all of them in the fields of the
/// neighbours (8 to 15) or all of them in the body (38 to 4,087).
pub fn is_allowed(offset: u16, long: usize) -> bool
    ensures { IsTrue result ↔ IsAllowed offset long }
{
    if long == 0 || long > TRAILER_AT - BODY_AT {
        return false;
    }
    let at = offset as usize;
    let end = at + long;
    (at >= PREVIOUS_AT && end <= LSN_AT) || (at >= BODY_AT && end <= TRAILER_AT)
}

// The header of a page that is made.
fn header_of(space: u32, number: u32, kind: PageKind, lsn: u64) -> [u8; BODY_AT]
    ensures { result ≡ header space number kind lsn }
{
    let mut bytes = [0; BODY_AT];
    put_u32(&mut bytes, 0, CHECKSUM);
    put_u32(&mut bytes, NUMBER_AT, number);
    put_u32(&mut bytes, PREVIOUS_AT, NO_PAGE);
    put_u32(&mut bytes, NEXT_AT, NO_PAGE);
    BigEndian::write_u64(&mut bytes[LSN_AT..KIND_AT], lsn);
    BigEndian::write_u16(&mut bytes[KIND_AT..KIND_AT + 2], kind.number());
    put_u32(&mut bytes, SPACE_AT, space);
    bytes
}

// The trailer of a page that is made.
fn trailer_of(lsn: u64) -> [u8; 8]
    ensures { result ≡ trailer lsn }
{
    let mut bytes = [0; 8];
    BigEndian::write_u64(&mut bytes, lsn);
    put_u32(&mut bytes, 0, CHECKSUM);
    bytes
}

fn put_u32(bytes: &mut [u8], at: usize, n: u32)
    requires { at + 4 ≤ length bytes.old }
    ensures { bytes.new ≡ put_at at (big_bytes 4 n) bytes.old }
{
    BigEndian::write_u32(&mut bytes[at..at + 4], n);
}
