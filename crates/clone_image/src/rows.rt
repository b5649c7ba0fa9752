ghost use Rattle.std.specs.Prelude.{◌≡◌, ◌↔◌, ◌<◌, OnOk, IsTrue};
ghost use Rattle.clone_page.specs.Slots.{row_slot_count, slot, row_of};
ghost use Rattle.clone_image.specs.Rows.{HoldsSlots};
ghost use Rattle.clone_image.specs.Added.{Adds, Below, InSlot, InPage};

use clone_model::{Tables, Value};
use clone_page::{Page, PageKind, ROW_SLOT_COUNT};
use clone_row::present;
use std::alloc::AllocError;

/// Adds the rows of a page of this table, if the page is of a kind that holds rows. Of rows that
/// stand more than once the last is kept.
pub fn add_page(tables: &mut Tables, table: u32, page: &Page) -> Result<(), AllocError>
    ensures { OnOk result (Adds tables.old tables.new (InPage table page.now)) }
{
    if holds_slots(page) {
        add_slots(tables, table, page)?;
    }
    Ok(())
}

fn holds_slots(page: &Page) -> bool
    ensures { IsTrue result ↔ HoldsSlots page.now }
{
    let kind = page.kind();
    kind == PageKind::Bucket.number() || kind == PageKind::Overflow.number()
}

fn add_slots(tables: &mut Tables, table: u32, page: &Page) -> Result<(), AllocError>
    ensures { OnOk result (Adds tables.old tables.new
        (Below row_slot_count (InSlot table page.now))) }
{
    for slot_number in 0..ROW_SLOT_COUNT {
        add_slot(tables, table, page, slot_number)?;
    }
    Ok(())
}

// Adds the row of a slot, if it holds one.
fn add_slot(
    tables: &mut Tables,
    table: u32,
    page: &Page,
    slot_number: u16,
) -> Result<(), AllocError>
    requires { slot_number < row_slot_count }
    ensures { OnOk result (Adds tables.old tables.new (InSlot table page.now slot_number)) }
{
    if let Some((key, value)) = row_at(page, slot_number) {
        tables.set(table, key, value)?;
    }
    Ok(())
}

// The key and the value of a slot, if it holds a row.
fn row_at(page: &Page, slot_number: u16) -> Option<(u64, Value)>
    requires { slot_number < row_slot_count }
    ensures { result ≡ row_of (slot slot_number page.now) }
{
    present(page, slot_number)
}
