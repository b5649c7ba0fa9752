//! Records by reference: the bytes of a write are lent, not copied. They keep the rule of a patch:
//! at most `LONGEST_PATCH` bytes, within the bytes of a page that a write may name.
ghost use Rattle.std.specs.Prelude.{◌≡◌, ◌≤◌, length};
ghost use Rattle.clone_page.specs.Header.{IsAllowed};
ghost use Rattle.clone_mtr.specs.References.{record_of};

use crate::{LONGEST_PATCH, Patch, Record};
use clone_page::PageKind;
use std::marker::Model;

/// The patch of a write, whose bytes are lent.
#[derive(Drop)]
pub struct PatchRef<'a> {
    offset: u16,
    bytes: &'a [u8],
}

impl<'a> Model for PatchRef<'a> {
    ghost use Rattle.std.specs.Prelude.{length, ◌≤◌};
    ghost use Rattle.clone_page.specs.Header.{IsAllowed};
    ghost use Rattle.clone_mtr.specs.Patches.{Patched};
    ghost use Rattle.clone_mtr.specs.declared.patch.TheConstants.{LONGEST_PATCH};

    ghost Value = { Patched };

    ghost view = { λ p. record { offset = p.offset; bytes = p.bytes.now } };

    ghost invariant = { λ p. (length p.bytes.now ≤ LONGEST_PATCH)
        × IsAllowed p.offset (length p.bytes.now) };
}

impl<'a> PatchRef<'a> {
    /// These bytes, from this offset on.
    pub(crate) fn new(offset: u16, bytes: &'a [u8]) -> PatchRef<'a>
        requires allowed { IsAllowed offset (length bytes.now) }
        requires short { length bytes.now ≤ LONGEST_PATCH }
        ensures { result ≡ record { offset = offset; bytes = bytes.now } }
    {
        PatchRef { offset, bytes }
    }

    /// Where on the page the bytes begin.
    pub fn offset(&self) -> u16
        ensures { result ≡ self.now.offset }
    {
        self.offset
    }

    /// The bytes.
    pub fn bytes(&self) -> &'a [u8]
        ensures value { result.now ≡ self.now.bytes }
        ensures allowed { IsAllowed self.now.offset (length self.now.bytes) }
        ensures short { length self.now.bytes ≤ LONGEST_PATCH }
    {
        self.bytes
    }
}

/// A record, whose patch is lent.
#[derive(Drop)]
pub enum RecordRef<'a> {
    /// A page is made anew, with a body of zero bytes.
    Init {
        space: u32,
        page: u32,
        kind: PageKind,
    },
    /// Bytes are written on a page.
    Write {
        space: u32,
        page: u32,
        patch: PatchRef<'a>,
    },
    /// A space has at least so many pages.
    Extend {
        space: u32,
        pages: u32,
    },
    /// A space is made, with so many unused pages.
    Create {
        space: u32,
        pages: u32,
    },
    /// A space is gone.
    Drop {
        space: u32,
    },
}

impl Patch {
    /// The patch, with its bytes lent.
    pub fn by_reference(&self) -> PatchRef<'_>
        ensures { result ≡ self.now }
    {
        PatchRef::new(self.offset(), self.bytes())
    }
}

impl Record {
    /// The record, with the bytes of its patch lent.
    pub fn by_reference(&self) -> RecordRef<'_>
        ensures { record_of result ≡ self.now }
    {
        match self {
            Record::Init { space, page, kind } => RecordRef::Init {
                space: *space,
                page: *page,
                kind: *kind,
            },
            Record::Write { space, page, patch } => RecordRef::Write {
                space: *space,
                page: *page,
                patch: patch.by_reference(),
            },
            Record::Extend { space, pages } => RecordRef::Extend {
                space: *space,
                pages: *pages,
            },
            Record::Create { space, pages } => RecordRef::Create {
                space: *space,
                pages: *pages,
            },
            Record::Drop { space } => RecordRef::Drop { space: *space },
        }
    }
}
