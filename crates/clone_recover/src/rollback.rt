ghost use Rattle.std.specs.Prelude.{◌≡◌, ◌<◌, ◌≤◌, ℕ, List, true, false, OnOk, IfOk, IfErr, IfSome, IfNone, IsErrOf, Some, is_some};
ghost use Rattle.std.specs.List.{AllByRecursion};
ghost use Rattle.clone_outside.specs.DiskCalls.{Reads};
ghost use Rattle.clone_undo.specs.Entries.{IsEntry};
ghost use Rattle.clone_undo.specs.Places as places;
ghost use Rattle.clone_undo.specs.Slots.{entry_on, entries};
ghost use Rattle.clone_image.specs.Image.{Image, page_of};
ghost use Rattle.clone_image.specs.Recovered.{system_pages, undo_slot_of, undone, all_undone, taken_back, freed, recovered};
ghost use Rattle.clone_image.specs.Rows.{IsListed};
ghost use Rattle.clone_overlay.specs.Shown.{Shows, ShowsSame, IsReady};
ghost use Rattle.clone_recover.specs.Undoing.{IsSlotInRange};
ghost use Rattle.clone_recover.specs.Damage.{ForImage, HeaderOn, ShowsEdited, PageOrOn, CountsTooMany, HasTooMany, CountsFit, IsUnsoundAt, IsUnsoundBelow, IsBroken, HasBroken, IsFirstBroken};
ghost use Rattle.clone_recover.specs.Undoing.{IsHeaderOf, IsRecordOf, IsSoundRecord, record_of};

use crate::RecoverRefusal;
use crate::dictionary::names;
use crate::redo::fetch;
use crate::refusal::damaged_undo;
use clone_outside::PageDisk;
use clone_overlay::Overlay;
use clone_row::slot_offset;
use clone_undo::{
    HEADER_AT, HEADER_BYTES, SlotHeader, UNDO_CAPACITY, UNDO_SLOT_COUNT, UndoRecord, header,
    header_page, record_at, record_page,
};

/// Takes back the changes of each transaction that is open, and frees its undo slot. All headers
/// are tested before any record is read.
pub fn take_back_open<R: PageDisk>(
    disk: &mut R,
    overlay: &mut Overlay,
) -> Result<(), RecoverRefusal>
    ensures recovered { OnOk result
        (ShowsEdited (R.state disk.old).told overlay.old overlay.new recovered) }
    ensures sound { OnOk result (ForImage (R.state disk.old).told overlay.old
        (λ m image. (page : ℕ) → HasBroken image page → ⊥)) }
    ensures cause { IfErr result (PageOrOn (R.state disk.old).told overlay.old HasBroken) }
    ensures order { IfErr result (PageOrOn (R.state disk.old).told overlay.old IsFirstBroken) }
    ensures known { IsErrOf result RecoverRefusal.Incomplete → ⊥ }
    ensures reads { Reads (IsErrOf result RecoverRefusal.DiskFault)
        (R.state disk.old) (R.state disk.new) }
{
    check_counts(disk, overlay)?;
    take_back_all(disk, overlay)
}

// Tests the count of each undo slot that is in use.
fn check_counts<R: PageDisk>(disk: &mut R, overlay: &mut Overlay) -> Result<(), RecoverRefusal>
    ensures shows { OnOk result (ShowsSame (R.state disk.old).told overlay.old overlay.new) }
    ensures counts { OnOk result (ForImage (R.state disk.old).told overlay.old
        (λ m image. CountsFit image)) }
    ensures cause { IfErr result (PageOrOn (R.state disk.old).told overlay.old HasTooMany) }
    ensures known { IsErrOf result RecoverRefusal.Incomplete → ⊥ }
    ensures reads { Reads (IsErrOf result RecoverRefusal.DiskFault)
        (R.state disk.old) (R.state disk.new) }
{
    for slot in 0..UNDO_SLOT_COUNT {
        header_of(disk, overlay, slot)?;
    }
    Ok(())
}

// Takes back the changes of each undo slot that is in use and frees it.
fn take_back_all<R: PageDisk>(disk: &mut R, overlay: &mut Overlay) -> Result<(), RecoverRefusal>
    ensures recovered { OnOk result
        (ShowsEdited (R.state disk.old).told overlay.old overlay.new recovered) }
    ensures sound { OnOk result (ForImage (R.state disk.old).told overlay.old
        (λ m image. (page : ℕ) → HasBroken image page → ⊥)) }
    ensures cause { IfErr result (PageOrOn (R.state disk.old).told overlay.old HasBroken) }
    ensures known { IsErrOf result RecoverRefusal.Incomplete → ⊥ }
    ensures reads { Reads (IsErrOf result RecoverRefusal.DiskFault)
        (R.state disk.old) (R.state disk.new) }
{
    for slot in 0..UNDO_SLOT_COUNT {
        take_back(disk, overlay, slot)?;
    }
    Ok(())
}

// Takes back the changes of an undo slot and frees it, if it is in use.
fn take_back<R: PageDisk>(
    disk: &mut R,
    overlay: &mut Overlay,
    slot: u32,
) -> Result<(), RecoverRefusal>
    requires { slot < places.undo_slot_count }
    ensures taken_back { OnOk result (ShowsEdited (R.state disk.old).told overlay.old overlay.new
        (λ image. taken_back image slot (undo_slot_of image slot))) }
    ensures ranges { OnOk result (ForImage (R.state disk.old).told overlay.old
        (λ m image. IsSlotInRange (undo_slot_of image slot))) }
    ensures sound { OnOk result (ForImage (R.state disk.old).told overlay.old
        (λ m image. (page : ℕ) → IsBroken image slot page → ⊥)) }
    ensures cause { IfErr result
        (PageOrOn (R.state disk.old).told overlay.old (λ image. IsBroken image slot)) }
    ensures known { IsErrOf result RecoverRefusal.Incomplete → ⊥ }
    ensures reads { Reads (IsErrOf result RecoverRefusal.DiskFault)
        (R.state disk.old) (R.state disk.new) }
{
    let Some(header) = header_of(disk, overlay, slot)? else {
        return Ok(());
    };
    undo_changes(disk, overlay, slot, header.count)?;
    free(disk, overlay, slot)
}

// Frees an undo slot.
fn free<R: PageDisk>(disk: &mut R, overlay: &mut Overlay, slot: u32) -> Result<(), RecoverRefusal>
    requires { slot < places.undo_slot_count }
    ensures freed { OnOk result
        (ShowsEdited (R.state disk.old).told overlay.old overlay.new (λ image. freed image slot)) }
    ensures cause { IfErr result (HeaderOn (R.state disk.old).told overlay.old) }
    ensures known { IsErrOf result RecoverRefusal.Incomplete → ⊥ }
    ensures reads { Reads (IsErrOf result RecoverRefusal.DiskFault)
        (R.state disk.old) (R.state disk.new) }
{
    let number = header_page(slot);
    fetch(disk, overlay, 0, number)?;
    overlay.lay(0, number, HEADER_AT, &[0; HEADER_BYTES]);
    Ok(())
}

// The header of an undo slot, if it is in use. A count above the most is damage.
fn header_of<R: PageDisk>(
    disk: &mut R,
    overlay: &mut Overlay,
    slot: u32,
) -> Result<Option<SlotHeader>, RecoverRefusal>
    requires { slot < places.undo_slot_count }
    ensures count { IfOk result (λ header. IfSome header (λ h. h.count ≤ places.capacity)) }
    ensures header { IfOk result (IsHeaderOf (R.state disk.old).told overlay.old slot) }
    ensures shows { OnOk result (ShowsSame (R.state disk.old).told overlay.old overlay.new) }
    ensures cause { IfErr result
        (PageOrOn (R.state disk.old).told overlay.old (λ image. CountsTooMany image slot)) }
    ensures known { IsErrOf result RecoverRefusal.Incomplete → ⊥ }
    ensures reads { Reads (IsErrOf result RecoverRefusal.DiskFault)
        (R.state disk.old) (R.state disk.new) }
{
    let number = header_page(slot);
    fetch(disk, overlay, 0, number)?;
    let Some(page) = overlay.page(0, number) else {
        return Ok(None);
    };
    match header(page) {
        Some(header) if header.count > UNDO_CAPACITY => Err(damaged_undo(number)),
        found => Ok(found),
    }
}

// Takes back so many changes of an undo slot, the last of them first.
fn undo_changes<R: PageDisk>(
    disk: &mut R,
    overlay: &mut Overlay,
    slot: u32,
    count: u16,
) -> Result<(), RecoverRefusal>
    requires slot { slot < places.undo_slot_count }
    requires count { count ≤ places.capacity }
    ensures undone { OnOk result (ShowsEdited (R.state disk.old).told overlay.old overlay.new
        (λ image. all_undone image (entries slot (system_pages image) count))) }
    ensures ranges { OnOk result (ForImage (R.state disk.old).told overlay.old
        (λ m image. AllByRecursion IsEntry (entries slot (system_pages image) count))) }
    ensures sound { OnOk result (ForImage (R.state disk.old).told overlay.old
        (λ m image. (page : ℕ) → IsUnsoundBelow image slot count page → ⊥)) }
    ensures cause { IfErr result (PageOrOn (R.state disk.old).told overlay.old
        (λ image. IsUnsoundBelow image slot count)) }
    ensures known { IsErrOf result RecoverRefusal.Incomplete → ⊥ }
    ensures reads { Reads (IsErrOf result RecoverRefusal.DiskFault)
        (R.state disk.old) (R.state disk.new) }
{
    for number in (0..count as usize).rev() {
        undo_change(disk, overlay, slot, number)?;
    }
    Ok(())
}

// Takes back the change that the record of this number tells.
fn undo_change<R: PageDisk>(
    disk: &mut R,
    overlay: &mut Overlay,
    slot: u32,
    number: usize,
) -> Result<(), RecoverRefusal>
    requires slot { slot < places.undo_slot_count }
    requires number { number < places.capacity }
    ensures undone { OnOk result (ShowsEdited (R.state disk.old).told overlay.old overlay.new
        (λ image. undone image (record_of image slot number))) }
    ensures range { OnOk result (ForImage (R.state disk.old).told overlay.old
        (λ m image. IsEntry (record_of image slot number))) }
    ensures sound { OnOk result (ForImage (R.state disk.old).told overlay.old
        (λ m image. (page : ℕ) → IsUnsoundAt image slot number page → ⊥)) }
    ensures cause { IfErr result (PageOrOn (R.state disk.old).told overlay.old
        (λ image. IsUnsoundAt image slot number)) }
    ensures known { IsErrOf result RecoverRefusal.Incomplete → ⊥ }
    ensures reads { Reads (IsErrOf result RecoverRefusal.DiskFault)
        (R.state disk.old) (R.state disk.new) }
{
    let on = record_page(slot, number);
    let Some(change) = sound_change(disk, overlay, on, number)? else {
        return Err(damaged_undo(on));
    };
    fetch(disk, overlay, change.table(), change.page())?;
    let row_at = slot_offset(change.slot());
    overlay.lay(change.table(), change.page(), row_at, &change.slot_before());
    Ok(())
}

// The record of this number on its page, or none where one of its fields is out of range, or its
// table or its page isn't there.
fn sound_change<R: PageDisk>(
    disk: &mut R,
    overlay: &mut Overlay,
    on: u32,
    number: usize,
) -> Result<Option<UndoRecord>, RecoverRefusal>
    requires { number < places.capacity }
    ensures change { IfOk result
        (IsSoundRecord (R.state disk.old).told overlay.old on number) }
    ensures shows { OnOk result (ShowsSame (R.state disk.old).told overlay.old overlay.new) }
    ensures cause { IfErr result (HeaderOn (R.state disk.old).told overlay.old) }
    ensures known { IsErrOf result RecoverRefusal.Incomplete → ⊥ }
    ensures reads { Reads (IsErrOf result RecoverRefusal.DiskFault)
        (R.state disk.old) (R.state disk.new) }
{
    fetch(disk, overlay, 0, on)?;
    let Some(change) = change_on(overlay, on, number) else {
        return Ok(None);
    };
    if !is_listed(disk, overlay, change.table())? {
        return Ok(None);
    }
    if !stands(disk, overlay, change.table(), change.page())? {
        return Ok(None);
    }
    Ok(Some(change))
}

// The record of this number on its page, or none where one of its fields is out of range.
fn change_on(overlay: &Overlay, on: u32, number: usize) -> Option<UndoRecord>
    requires ready { IsReady overlay.now 0 on }
    requires number { number < places.capacity }
    ensures some { IfSome result (IsRecordOf overlay.now on number) }
    ensures range { IfSome result (λ r. IsEntry r) }
    ensures none { IfNone result ((base image : Image) → Shows base image overlay.now
        → (bytes : List ℕ) → page_of image 0 on ≡ Some bytes
        → IsEntry (entry_on number bytes) → ⊥) }
{
    record_at(overlay.page(0, on)?, number)
}

// Whether the dictionary names the table.
fn is_listed<R: PageDisk>(
    disk: &mut R,
    overlay: &mut Overlay,
    table: u32,
) -> Result<bool, RecoverRefusal>
    requires { 0 < table }
    ensures yes { IfOk result (λ listed. ForImage (R.state disk.old).told overlay.old
        (λ m image. listed ≡ true → IsListed (page_of image) table)) }
    ensures no { IfOk result (λ listed. ForImage (R.state disk.old).told overlay.old
        (λ m image. listed ≡ false → IsListed (page_of image) table → ⊥)) }
    ensures shows { OnOk result (ShowsSame (R.state disk.old).told overlay.old overlay.new) }
    ensures cause { IfErr result (HeaderOn (R.state disk.old).told overlay.old) }
    ensures known { IsErrOf result RecoverRefusal.Incomplete → ⊥ }
    ensures reads { Reads (IsErrOf result RecoverRefusal.DiskFault)
        (R.state disk.old) (R.state disk.new) }
{
    fetch(disk, overlay, 0, 0)?;
    match overlay.page(0, 0) {
        Some(system) => Ok(names(system, table)),
        None => Ok(false),
    }
}

// Whether a page is there.
fn stands<R: PageDisk>(
    disk: &mut R,
    overlay: &mut Overlay,
    space: u32,
    number: u32,
) -> Result<bool, RecoverRefusal>
    ensures there { IfOk result (λ there. ForImage (R.state disk.old).told overlay.old
        (λ m image. there ≡ is_some (page_of image space number))) }
    ensures shows { OnOk result (ShowsSame (R.state disk.old).told overlay.old overlay.new) }
    ensures cause { IfErr result (HeaderOn (R.state disk.old).told overlay.old) }
    ensures known { IsErrOf result RecoverRefusal.Incomplete → ⊥ }
    ensures reads { Reads (IsErrOf result RecoverRefusal.DiskFault)
        (R.state disk.old) (R.state disk.new) }
{
    fetch(disk, overlay, space, number)?;
    Ok(overlay.page(space, number).is_some())
}
