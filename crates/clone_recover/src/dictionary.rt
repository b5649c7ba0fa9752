ghost use Rattle.std.specs.Prelude.{◌≡◌, ◌≢◌, ◌<◌, ◌↔◌, ℕ, IsTrue, OnOk, IfErr, IsErrOf, true, false};
ghost use Rattle.clone_outside.specs.DiskCalls.{Reads};
ghost use Rattle.clone_page.specs.Dictionary.{entry_count, entry_space, Lists};
ghost use Rattle.clone_image.specs.Image.{Image};
ghost use Rattle.clone_overlay.specs.Shown.{Shows, ShowsSame, IsReady};
ghost use Rattle.clone_recover.specs.Damage.{ForImage, AgainstOn, NamesGone, NamesMissing};

use crate::redo::fetch;
use crate::{RecoverRefusal, Why};
use clone_outside::PageDisk;
use clone_overlay::Overlay;
use clone_page::{ENTRIES_AT, ENTRY_BYTES, ENTRY_COUNT, Page, u32_at};

/// Tests that each space is there that the dictionary names. Without a system page there is no
/// dictionary.
pub fn check_dictionary<R: PageDisk>(
    disk: &mut R,
    overlay: &mut Overlay,
) -> Result<(), RecoverRefusal>
    ensures shows { OnOk result (ShowsSame (R.state disk.old).told overlay.old overlay.new) }
    ensures sound { OnOk result (ForImage (R.state disk.old).told overlay.old
        (λ m image. NamesMissing image → ⊥)) }
    ensures cause { IfErr result (AgainstOn (R.state disk.old).told overlay.old) }
    ensures known { IsErrOf result RecoverRefusal.Incomplete → ⊥ }
    ensures reads { Reads (IsErrOf result RecoverRefusal.DiskFault)
        (R.state disk.old) (R.state disk.new) }
{
    fetch(disk, overlay, 0, 0)?;
    match overlay.page(0, 0) {
        Some(system) if names_missing(overlay, system) => Err(RecoverRefusal::Damaged {
            space: 0,
            page: 0,
            why: Why::Dictionary,
        }),
        _ => Ok(()),
    }
}

// Whether an entry names a space that isn't there.
fn names_missing(overlay: &Overlay, system: &Page) -> bool
    ensures yes { result ≡ true → (base image : Image) → Shows base image overlay.now
        → NamesGone image system.now }
    ensures no { result ≡ false → (base image : Image) → Shows base image overlay.now
        → NamesGone image system.now → ⊥ }
{
    for entry_number in 0..ENTRY_COUNT {
        let table = table_at(system, entry_number);
        if table != 0 && overlay.pages(table).is_none() {
            return true;
        }
    }
    false
}

/// Whether an entry of the dictionary names the table.
pub fn names(system: &Page, table: u32) -> bool
    requires { 0 < table }
    ensures yes { result ≡ true → Lists system.now table }
    ensures no { result ≡ false → Lists system.now table → ⊥ }
{
    for entry_number in 0..ENTRY_COUNT {
        if table_at(system, entry_number) == table {
            return true;
        }
    }
    false
}

/// The table that an entry of the dictionary names, or 0 where the entry is free.
pub fn table_at(system: &Page, entry_number: usize) -> u32
    requires { entry_number < entry_count }
    ensures { result ≡ entry_space entry_number system.now }
{
    u32_at(system.bytes(), ENTRIES_AT + ENTRY_BYTES * entry_number)
}
