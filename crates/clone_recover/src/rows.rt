ghost use Rattle.std.specs.Prelude.{◌≡◌, ◌<◌, OnOk, IfOk, IfErr, IsErrOf};
ghost use Rattle.clone_outside.specs.Disk.{ForTold};
ghost use Rattle.clone_outside.specs.DiskCalls.{Reads};
ghost use Rattle.clone_model.specs.History.{Rows, rows_in};
ghost use Rattle.clone_recover.specs.Refusals.{IsOfDisk};
ghost use Rattle.clone_recover.specs.Restores.{IsRowsCause};
ghost use Rattle.clone_recover.specs.Listing.{AddsTable, AddsListed, ListsRowsOn};

use crate::RecoverRefusal;
use crate::dictionary::table_at;
use crate::recovery::mark_of;
use clone_base::REDO_SPACE;
use clone_image::add_page;
use clone_model::{Tables, Value};
use clone_outside::{Mark, PageDisk};
use clone_page::{ENTRY_COUNT, Page};
use std::alloc::Global;

/// The rows of a recovered disk, ascending by table and key. `Incomplete` comes exactly where no
/// recovered mark stands. No page is tested, and two pages are in memory at a time.
pub fn open_rows<R: PageDisk>(
    alloc: Global,
    disk: &mut R,
) -> Result<Vec<(u32, u64, Value)>, RecoverRefusal>
    ensures rows { IfOk result (λ list. ListsRowsOn (R.state disk.old).told list.items) }
    ensures ascending { IfOk result (λ list. (rows : Rows) × (list.items ≡ rows_in rows)) }
    ensures cause { IfErr result
        (λ refusal. ForTold (R.state disk.old).told (λ m. IsRowsCause m refusal)) }
    ensures reads { Reads (IsErrOf result RecoverRefusal.DiskFault)
        (R.state disk.old) (R.state disk.new) }
{
    let Some(mark) = mark_of(disk)? else {
        return Err(RecoverRefusal::Incomplete);
    };
    let Mark::Recovered(_) = mark else {
        return Err(RecoverRefusal::Incomplete);
    };
    let mut tables = Tables::new(alloc);
    add_tables(disk, &mut tables)?;
    Ok(tables.rows(alloc)?)
}

// Adds the rows of each table that the dictionary lists.
fn add_tables<R: PageDisk>(disk: &mut R, tables: &mut Tables) -> Result<(), RecoverRefusal>
    ensures added { OnOk result (AddsListed (R.state disk.old).told tables.old tables.new) }
    ensures cause { IfErr result IsOfDisk }
    ensures reads { Reads (IsErrOf result RecoverRefusal.DiskFault)
        (R.state disk.old) (R.state disk.new) }
{
    if disk.pages(0)?.unwrap_or(0) == 0 {
        return Ok(());
    }
    let mut system = Page::zero();
    disk.read_page(0, 0, system.bytes_mut())?;
    for entry_number in 0..ENTRY_COUNT {
        let table = table_at(&system, entry_number);
        if table != 0 && table < REDO_SPACE {
            add_table(disk, tables, table)?;
        }
    }
    Ok(())
}

// Adds the rows of a table, if its space is there.
fn add_table<R: PageDisk>(
    disk: &mut R,
    tables: &mut Tables,
    table: u32,
) -> Result<(), RecoverRefusal>
    requires { table < REDO_SPACE }
    ensures added { OnOk result (AddsTable (R.state disk.old).told table tables.old tables.new) }
    ensures cause { IfErr result IsOfDisk }
    ensures reads { Reads (IsErrOf result RecoverRefusal.DiskFault)
        (R.state disk.old) (R.state disk.new) }
{
    let count = disk.pages(table)?.unwrap_or(0);
    let mut page = Page::zero();
    for number in 0..count {
        disk.read_page(table, number, page.bytes_mut())?;
        add_page(tables, table, &page)?;
    }
    Ok(())
}
