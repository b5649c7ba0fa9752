ghost use Rattle.std.specs.Prelude.{◌≡◌, ◌<◌, IfOk};
ghost use Rattle.clone_page.specs.Dictionary.{entry_count};
ghost use Rattle.clone_space.specs.Entries.{dictionary, entry_in, Finds, FindsFree};
ghost use Rattle.clone_space.specs.Entries as entries;

use crate::entry::{BUCKETS_AT, PAGES_AT, TableEntry};
use clone_page::{ENTRIES_AT, ENTRY_BYTES, ENTRY_COUNT, Page, u32_at};
use std::alloc::{AllocError, Global};

/// The entry with this number, from 0 to 61, of the dictionary on the system page.
pub fn entry_at(page: &Page, entry_number: usize) -> TableEntry
    requires { entry_number < entry_count }
    ensures { result ≡ entry_in (dictionary page.now) entry_number }
{
    let bytes = page.bytes();
    let at = ENTRIES_AT + ENTRY_BYTES * entry_number;
    TableEntry {
        table: u32_at(bytes, at),
        buckets: u32_at(bytes, at + BUCKETS_AT),
        pages: u32_at(bytes, at + PAGES_AT),
    }
}

/// The number of the first entry that names a table. None exactly where no entry does.
pub fn find(page: &Page, table: u32) -> Option<usize>
    ensures { Finds table (dictionary page.now) result }
{
    for entry_number in 0..ENTRY_COUNT {
        if entry_at(page, entry_number).table == table {
            return Some(entry_number);
        }
    }
    None
}

/// The number of the least free entry. None exactly where each names a table.
pub fn least_free(page: &Page) -> Option<usize>
    ensures { FindsFree (dictionary page.now) result }
{
    find(page, 0)
}

/// The tables that the dictionary names, in the order of their entries, each with how many pages
/// its space has.
pub fn sizes(alloc: Global, page: &Page) -> Result<Vec<(u32, u32)>, AllocError>
    ensures { IfOk result (λ sizes. sizes.items ≡ entries.sizes (dictionary page.now)) }
{
    let mut sizes = Vec::new(alloc);
    for entry_number in 0..ENTRY_COUNT {
        let entry = entry_at(page, entry_number);
        if !entry.is_free() {
            sizes.push((entry.table, entry.pages))?;
        }
    }
    Ok(sizes)
}
