ghost use Rattle.std.specs.Prelude.{◌≡◌, OnOk, is_some};
ghost use Rattle.std.specs.FinMap as finite;
ghost use Rattle.clone_outside.specs.Disk.{Steps};
ghost use Rattle.clone_outside.specs.DiskCalls.{Works};
ghost use Rattle.clone_overlay.specs.Covers.{covers_of, leaves_of};
ghost use Rattle.clone_recover.specs.Written.{with_leaves, with_count, with_sheet, with_sheets, without_space, without_spaces, written_out};

use clone_base::REDO_SPACE;
use clone_outside::{PageDisk, Refusal, write_page};
use clone_overlay::{Leaves, Overlay, Sheet, Sheets};
use std::alloc::Global;

/// Writes an overlay to its disk: spaces that are gone are removed, the others get their pages, and
/// each page that is held is written. The redo's space and those behind it stay.
pub fn write_out<R: PageDisk>(alloc: Global, disk: &mut R, overlay: &Overlay) -> Result<(), Refusal>
    ensures written { OnOk result
        (Steps (R.state disk.old).told (R.state disk.new).told (written_out overlay.now)) }
    ensures works { Works (R.state disk.old) (R.state disk.new) result }
{
    let sheets = overlay.sheets();
    let spaces = disk.spaces(alloc)?;
    remove_gone(disk, sheets, &spaces)?;
    write_sheets(disk, sheets)
}

// Removes those of the spaces that are no redo and have no sheet.
fn remove_gone<R: PageDisk>(disk: &mut R, sheets: &Sheets, spaces: &[u32]) -> Result<(), Refusal>
    ensures removed { OnOk result (Steps (R.state disk.old).told (R.state disk.new).told
        (λ m. without_spaces (covers_of sheets.now.entries) m spaces.now)) }
    ensures works { Works (R.state disk.old) (R.state disk.new) result }
{
    for space in spaces {
        remove_if_gone(disk, sheets, *space)?;
    }
    Ok(())
}

// Removes a space that is no redo and has no sheet.
fn remove_if_gone<R: PageDisk>(disk: &mut R, sheets: &Sheets, space: u32) -> Result<(), Refusal>
    ensures removed { OnOk result (Steps (R.state disk.old).told (R.state disk.new).told
        (λ m. without_space (covers_of sheets.now.entries) m space)) }
    ensures works { Works (R.state disk.old) (R.state disk.new) result }
{
    if space >= REDO_SPACE {
        return Ok(());
    }
    if has_sheet(sheets, space) {
        return Ok(());
    }
    disk.remove(space)
}

#[tactic(auto, using(clone_overlay::proofs::Entries::get_cover))]
fn has_sheet(sheets: &Sheets, space: u32) -> bool
    ensures { result ≡ is_some (finite.get (covers_of sheets.now.entries) space) }
{
    sheets.contains_key(&space)
}

fn write_sheets<R: PageDisk>(disk: &mut R, sheets: &Sheets) -> Result<(), Refusal>
    ensures written { OnOk result (Steps (R.state disk.old).told (R.state disk.new).told
        (λ m. with_sheets m (finite.entries (covers_of sheets.now.entries)))) }
    ensures works { Works (R.state disk.old) (R.state disk.new) result }
{
    for (space, sheet) in sheets {
        write_sheet(disk, *space, sheet)?;
    }
    Ok(())
}

// Gives the space its pages, and writes those that are held.
fn write_sheet<R: PageDisk>(disk: &mut R, space: u32, sheet: &Sheet) -> Result<(), Refusal>
    ensures written { OnOk result
        (Steps (R.state disk.old).told (R.state disk.new).told
        (λ m. with_sheet m space sheet.now)) }
    ensures works { Works (R.state disk.old) (R.state disk.new) result }
{
    give_pages(disk, space, sheet)?;
    write_leaves(disk, space, sheet.leaves())
}

// Makes the space anew, or keeps the disk's pages of it and adds the others.
fn give_pages<R: PageDisk>(disk: &mut R, space: u32, sheet: &Sheet) -> Result<(), Refusal>
    ensures given { OnOk result
        (Steps (R.state disk.old).told (R.state disk.new).told
        (λ m. with_count space m sheet.now)) }
    ensures works { Works (R.state disk.old) (R.state disk.new) result }
{
    if sheet.kept() == 0 {
        disk.create(space, sheet.count())
    } else {
        disk.extend(space, sheet.count())
    }
}

fn write_leaves<R: PageDisk>(disk: &mut R, space: u32, leaves: &Leaves) -> Result<(), Refusal>
    ensures written { OnOk result (Steps (R.state disk.old).told (R.state disk.new).told
        (λ m. with_leaves space m (finite.entries (leaves_of leaves.now.entries)))) }
    ensures works { Works (R.state disk.old) (R.state disk.new) result }
{
    for (number, page) in leaves {
        write_page(disk, space, *number, page.bytes())?;
    }
    Ok(())
}
