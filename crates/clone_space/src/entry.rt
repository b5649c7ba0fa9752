//! An entry of the dictionary: 16 bytes, big-endian. The table is at 0, the number of buckets at
//! 4, the number of pages at 8, 4 bytes each, and the last 4 bytes are zero. A table of 0 says
//! that the entry is free.
ghost use Rattle.std.specs.Prelude.{◌≡◌, ◌↔◌, ◌≤◌, IsTrue};
ghost use Rattle.clone_model.specs.declared.line.TheConstants.{MOST_PAGES};
ghost use Rattle.clone_space.specs.Records.{entry_bytes};

use clone_model::MOST_PAGES;
use clone_page::{ENTRY_BYTES, put};

/// Where in an entry the number of buckets stands. The table comes first.
pub const BUCKETS_AT: usize = 4;

/// Where in an entry the number of pages stands.
pub const PAGES_AT: usize = 8;

/// An entry of the dictionary.
#[derive(Clone, Copy, Debug, PartialEq, Eq)]
pub struct TableEntry {
    /// The number of the table, which is that of its space, or 0 where the entry is free.
    pub table: u32,
    /// How many buckets the table has.
    pub buckets: u32,
    /// How many pages its space has.
    pub pages: u32,
}

impl TableEntry {
    /// Whether the entry names no table.
    pub fn is_free(&self) -> bool
        ensures { IsTrue result ↔ (self.now.table ≡ 0) }
    {
        self.table == 0
    }

    /// Whether the space has as many pages as a space may have, so that it gets no other.
    pub fn is_full(&self) -> bool
        ensures { IsTrue result ↔ (MOST_PAGES ≤ self.now.pages) }
    {
        self.pages >= MOST_PAGES
    }

    /// The bytes of the entry.
    pub(crate) fn bytes(&self) -> [u8; ENTRY_BYTES]
        ensures { result ≡ entry_bytes self.now }
    {
        let mut bytes = [0; ENTRY_BYTES];
        put(&mut bytes, 0, &self.table.to_be_bytes());
        put(&mut bytes, BUCKETS_AT, &self.buckets.to_be_bytes());
        put(&mut bytes, PAGES_AT, &self.pages.to_be_bytes());
        bytes
    }
}
