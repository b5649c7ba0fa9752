//! The bytes that a write puts on a page: 1 to `LONGEST_PATCH` of them, in place up to
//! `SHORT_PATCH`. From the offset on they lie either within the numbers of the pages before and
//! behind, at 8 to 15, or within the body, at 38 to 4,087. So no write reaches a page's LSN, its
//! kind or its trailer.
ghost use Rattle.std.specs.Prelude.{◌≡◌, ◌≤◌, IfOk, length};
ghost use Rattle.clone_page.specs.Header.{IsAllowed};
ghost use Rattle.clone_mtr.specs.Patches.{AreBytes};

use std::alloc::{AllocError, Global};
use std::marker::Model;

/// The most bytes that a write may have: as many as a mini-transaction of one write has room for.
pub const LONGEST_PATCH: usize = 1_010;

/// The most bytes that a patch keeps in place, without memory of its own.
pub const SHORT_PATCH: usize = 112;

/// What a write puts on a page: 1 to `LONGEST_PATCH` bytes, from an offset on. They lie within the
/// bytes that a write may name.
#[derive(Drop)]
pub struct Patch {
    offset: u16,
    bytes: Kept,
}

// Up to `SHORT_PATCH` bytes in place, of which the first `len` count, or more in memory.
#[derive(Drop)]
pub(crate) enum Kept {
    Short { bytes: [u8; SHORT_PATCH], len: u16 },
    Long(Vec<u8>),
}

impl Model for Patch {
    ghost use Rattle.std.specs.Prelude.{length, ◌≤◌};
    ghost use Rattle.clone_page.specs.Header.{IsAllowed};
    ghost use Rattle.clone_mtr.specs.Patches.{AreBytes, IsWithin, Patched, kept_bytes};
    ghost use Rattle.clone_mtr.specs.declared.patch.TheConstants.{LONGEST_PATCH};

    ghost Value = { Patched };

    ghost view = { λ p. record { offset = p.offset; bytes = kept_bytes p.bytes } };

    ghost invariant = { λ p. IsWithin p.bytes × (length (kept_bytes p.bytes) ≤ LONGEST_PATCH)
        × IsAllowed p.offset (length (kept_bytes p.bytes)) × AreBytes (kept_bytes p.bytes) };
}

impl Patch {
    /// These few bytes, from this offset on. No memory is taken.
    pub fn new(offset: u16, bytes: &[u8]) -> Patch
        requires allowed { IsAllowed offset (length bytes.now) }
        requires short { length bytes.now ≤ SHORT_PATCH }
        ensures offset { result.offset ≡ offset }
        ensures bytes { result.bytes ≡ bytes.now }
    {
        let mut kept = [0; SHORT_PATCH];
        kept[..bytes.len()].copy_from_slice(bytes);
        Patch {
            offset,
            bytes: Kept::Short {
                bytes: kept,
                len: bytes.len() as u16,
            },
        }
    }

    /// These bytes, from this offset on.
    pub fn copied(alloc: Global, offset: u16, bytes: &[u8]) -> Result<Patch, AllocError>
        requires allowed { IsAllowed offset (length bytes.now) }
        requires short { length bytes.now ≤ LONGEST_PATCH }
        ensures offset { IfOk result (λ patch. patch.offset ≡ offset) }
        ensures bytes { IfOk result (λ patch. patch.bytes ≡ bytes.now) }
    {
        if bytes.len() <= SHORT_PATCH {
            return Ok(Patch::new(offset, bytes));
        }
        let mut kept = Vec::with_capacity(alloc, bytes.len())?;
        kept.extend_from_slice(bytes)?;
        Ok(Patch {
            offset,
            bytes: Kept::Long(kept),
        })
    }

    /// Where on the page the bytes begin.
    pub fn offset(&self) -> u16
        ensures { result ≡ self.now.offset }
    {
        self.offset
    }

    /// The bytes.
    pub fn bytes(&self) -> &[u8]
        ensures value { result.now ≡ self.now.bytes }
        ensures allowed { IsAllowed self.now.offset (length self.now.bytes) }
        ensures short { length self.now.bytes ≤ LONGEST_PATCH }
        ensures ranges { AreBytes self.now.bytes }
    {
        match &self.bytes {
            Kept::Short { bytes, len } => &bytes[..*len as usize],
            Kept::Long(bytes) => bytes,
        }
    }
}
