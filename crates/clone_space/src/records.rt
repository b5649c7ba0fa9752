//! The records that make, lengthen and drop a table's space, in their order. Made: the space, then
//! its entry. Longer by a page: the number of pages in the entry, the space, the new overflow
//! page, and the page before it, which names it. Dropped: the space, then its entry as zero bytes.
//! Those of one list are one mini-transaction.
ghost use Rattle.std.specs.Prelude.{◌≡◌, ◌<◌, ◌≤◌, length};
ghost use Rattle.clone_model.specs.declared.line.TheConstants.{MOST_PAGES};
ghost use Rattle.clone_page.specs.Dictionary.{entry_count};
ghost use Rattle.clone_page.specs.Header.{IsAllowed};
ghost use Rattle.clone_mtr.specs.declared.patch.TheConstants.{SHORT_PATCH};
ghost use Rattle.clone_space.specs.Entries.{entry_at_offset};
ghost use Rattle.clone_space.specs.Records.{system_write, records_of_create, records_of_growth, records_of_drop};

use crate::entry::{PAGES_AT, TableEntry};
use clone_mtr::{Patch, Record};
use clone_page::{ENTRIES_AT, ENTRY_BYTES, NEXT_AT, PageKind};

/// A table's space is made, with a page for each bucket, and the table is named in the entry with
/// this number.
pub fn create_records(entry_number: usize, table: u32, buckets: u32) -> [Record; 2]
    requires { entry_number < entry_count }
    ensures { result ≡ records_of_create entry_number table buckets }
{
    let entry = TableEntry {
        table,
        buckets,
        pages: buckets,
    };
    [
        Record::Create {
            space: table,
            pages: buckets,
        },
        written(entry_offset(entry_number), &entry.bytes()),
    ]
}

/// The space of the table in the entry with this number, which has so many pages, gets one page
/// more, behind the last page of a chain.
pub fn growth_records(entry_number: usize, table: u32, pages: u32, last: u32) -> [Record; 4]
    requires number { entry_number < entry_count }
    requires room { pages < MOST_PAGES }
    ensures { result ≡ records_of_growth entry_number table pages last }
{
    [
        written(
            entry_offset(entry_number) + PAGES_AT as u16,
            &(pages + 1).to_be_bytes(),
        ),
        Record::Extend {
            space: table,
            pages: pages + 1,
        },
        Record::Init {
            space: table,
            page: pages,
            kind: PageKind::Overflow,
        },
        Record::Write {
            space: table,
            page: last,
            patch: Patch::new(NEXT_AT as u16, &pages.to_be_bytes()),
        },
    ]
}

/// A table's space is gone, and the entry with this number, which named the table, is free.
pub fn drop_records(entry_number: usize, table: u32) -> [Record; 2]
    requires { entry_number < entry_count }
    ensures { result ≡ records_of_drop entry_number table }
{
    [
        Record::Drop { space: table },
        written(entry_offset(entry_number), &[0; ENTRY_BYTES]),
    ]
}

// Where the entry with this number stands on the system page.
fn entry_offset(entry_number: usize) -> u16
    requires { entry_number < entry_count }
    ensures { result ≡ entry_at_offset entry_number }
{
    (ENTRIES_AT + ENTRY_BYTES * entry_number) as u16
}

// Bytes are written on the system page.
fn written(offset: u16, bytes: &[u8]) -> Record
    requires allowed { IsAllowed offset (length bytes.now) }
    requires short { length bytes.now ≤ SHORT_PATCH }
    ensures { result ≡ system_write offset bytes.now }
{
    Record::Write {
        space: 0,
        page: 0,
        patch: Patch::new(offset, bytes),
    }
}
