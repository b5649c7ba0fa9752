//! The chains of all tables, walked bucket by bucket. Each page that a walk comes to gets a stamp,
//! the bucket's number and one. So a walk that comes to its own stamp comes back; one that comes to
//! an earlier bucket's goes on as a chain that is whole, and ends there. Each page of a table is
//! looked at once, and none is held for it.
ghost use Rattle.std.specs.Prelude.{◌≡◌, ◌≤◌, ◌<◌, ◌+◌, ◌^◌, ◌↔◌, ◌⊎◌, ℕ, IsTrue, OnOk, IfOk, IfErr, IsErrOf, length, get_or, option_copied};
ghost use Rattle.std.specs.FinMap as finite;
ghost use Rattle.clone_outside.specs.DiskCalls.{Reads};
ghost use Rattle.clone_overlay.specs.Answers.{GivesAgainst, GivesMisplaced};
ghost use Rattle.clone_overlay.specs.Shown.{ShowsSame};
ghost use Rattle.clone_recover.specs.Chains.{next_in, IsWholeChain, HasBrokenChain, BreaksFirst, IsFirstBrokenChain};
ghost use Rattle.clone_recover.specs.Damage.{ForImage, HeaderOn, IsChainOr, ChainOrOn};
ghost use Rattle.clone_recover.specs.Walks.{AreStamped, BreaksAt, AreWhole, BreaksBelow, AreAllWhole, ReadsBehind, SeesBehind, IsNextTable, HasBuckets};

use crate::RecoverRefusal;
use crate::redo::fetch;
use crate::refusal::{damaged_chain, not_fetched};
use clone_outside::PageDisk;
use clone_overlay::{FetchRefusal, Overlay, Sheet};
use clone_page::{ENTRY_COUNT, Page};
use clone_row::next_page;
use clone_space::entry_at;
use std::alloc::Global;

/// Tests the chain of each bucket of each table that the dictionary names: by table number,
/// ascending, and then by bucket.
pub fn check_chains<R: PageDisk>(
    alloc: Global,
    disk: &mut R,
    overlay: &mut Overlay,
) -> Result<(), RecoverRefusal>
    ensures shows { OnOk result (ShowsSame (R.state disk.old).told overlay.old overlay.new) }
    ensures sound { OnOk result (ForImage (R.state disk.old).told overlay.old
        (λ m image. (table page : ℕ) → HasBrokenChain image table page → ⊥)) }
    ensures cause { IfErr result
        (ChainOrOn (R.state disk.old).told overlay.old IsFirstBrokenChain) }
    ensures known { IsErrOf result RecoverRefusal.Incomplete → ⊥ }
    ensures reads { Reads (IsErrOf result RecoverRefusal.DiskFault)
        (R.state disk.old) (R.state disk.new) }
{
    fetch(disk, overlay, 0, 0)?;
    match overlay.page(0, 0) {
        Some(system) => check_tables(alloc, disk, overlay, system),
        None => Ok(()),
    }
}

// Tests the chains of each table that the system page tells of.
fn check_tables<R: PageDisk>(
    alloc: Global,
    disk: &mut R,
    overlay: &Overlay,
    system: &Page,
) -> Result<(), RecoverRefusal>
    ensures sound { OnOk result (ForImage (R.state disk.old).told overlay.now
        (λ m image. AreAllWhole image system.now)) }
    ensures cause { IfErr result (ChainOrOn (R.state disk.old).told overlay.now
        (λ image. BreaksFirst image system.now)) }
    ensures known { IsErrOf result RecoverRefusal.Incomplete → ⊥ }
    ensures reads { Reads (IsErrOf result RecoverRefusal.DiskFault)
        (R.state disk.old) (R.state disk.new) }
{
    let mut above = 0;
    while let Some(table) = next_table(system, above) {
        check_table(alloc, disk, overlay, table, buckets_of(system, table))?;
        above = table;
    }
    Ok(())
}

// The least table above this one that an entry names, if one does.
fn next_table(system: &Page, above: u32) -> Option<u32>
    ensures { IsNextTable system.now above result }
{
    let mut next = None;
    for entry_number in 0..ENTRY_COUNT {
        let table = entry_at(system, entry_number).table;
        if table > above {
            next = Some(next.unwrap_or(table).min(table));
        }
    }
    next
}

// How many buckets a table has. Where more than one entry names it, it has those of each.
fn buckets_of(system: &Page, table: u32) -> u32
    requires { 0 < table }
    ensures { HasBuckets system.now table result }
{
    let mut buckets = 0;
    for entry_number in 0..ENTRY_COUNT {
        let entry = entry_at(system, entry_number);
        if entry.table == table {
            buckets = entry.buckets.max(buckets);
        }
    }
    buckets
}

// Tests the chain of each bucket of a table.
fn check_table<R: PageDisk>(
    alloc: Global,
    disk: &mut R,
    overlay: &Overlay,
    table: u32,
    buckets: u32,
) -> Result<(), RecoverRefusal>
    ensures sound { OnOk result (ForImage (R.state disk.old).told overlay.now
        (λ m image. AreWhole image table buckets)) }
    ensures cause { IfErr result
        (ChainOrOn (R.state disk.old).told overlay.now (BreaksBelow table buckets)) }
    ensures known { IsErrOf result RecoverRefusal.Incomplete → ⊥ }
    ensures reads { Reads (IsErrOf result RecoverRefusal.DiskFault)
        (R.state disk.old) (R.state disk.new) }
{
    let pages = overlay.pages(table).unwrap_or(0);
    let mut stamps = vec![in alloc; 0; pages as usize]?;
    check_buckets(disk, overlay, table, buckets, &mut stamps)
}

// Tests the chain of each bucket of a table, of which no page has a stamp.
fn check_buckets<R: PageDisk>(
    disk: &mut R,
    overlay: &Overlay,
    table: u32,
    buckets: u32,
    stamps: &mut [u32],
) -> Result<(), RecoverRefusal>
    ensures sound { OnOk result (ForImage (R.state disk.old).told overlay.now
        (λ m image. AreStamped image table 0 stamps.old → AreWhole image table buckets)) }
    ensures cause { IfErr result (λ refusal. ForImage (R.state disk.old).told overlay.now
        (λ m image. AreStamped image table 0 stamps.old
        → IsChainOr (BreaksBelow table buckets image) m refusal)) }
    ensures known { IsErrOf result RecoverRefusal.Incomplete → ⊥ }
    ensures reads { Reads (IsErrOf result RecoverRefusal.DiskFault)
        (R.state disk.old) (R.state disk.new) }
{
    for bucket in 0..buckets {
        check_chain(disk, overlay, table, bucket, stamps)?;
    }
    Ok(())
}

// Tests the chain of a bucket. The walk goes to its end, or to a page that has the stamp of an
// earlier bucket.
fn check_chain<R: PageDisk>(
    disk: &mut R,
    overlay: &Overlay,
    table: u32,
    bucket: u32,
    stamps: &mut [u32],
) -> Result<(), RecoverRefusal>
    requires { bucket + 1 < 2 ^ 32 }
    ensures stamped { OnOk result (ForImage (R.state disk.old).told overlay.now
        (λ m image. AreStamped image table bucket stamps.old
        → AreStamped image table (bucket + 1) stamps.new)) }
    ensures whole { OnOk result (ForImage (R.state disk.old).told overlay.now
        (λ m image. AreStamped image table bucket stamps.old
        → IsWholeChain image table bucket)) }
    ensures cause { IfErr result (λ refusal. ForImage (R.state disk.old).told overlay.now
        (λ m image. AreStamped image table bucket stamps.old
        → IsChainOr (BreaksAt table bucket image) m refusal)) }
    ensures known { IsErrOf result RecoverRefusal.Incomplete → ⊥ }
    ensures reads { Reads (IsErrOf result RecoverRefusal.DiskFault)
        (R.state disk.old) (R.state disk.new) }
{
    if bucket as usize >= stamps.len() {
        return Err(damaged_chain(table, bucket));
    }
    let mut page = bucket;
    while stamps[page as usize] == 0 {
        stamps[page as usize] = bucket + 1;
        let Some(next) = page_behind(disk, overlay, table, page)? else {
            return Ok(());
        };
        if is_wrong(stamps, next, bucket + 1) {
            return Err(damaged_chain(table, page));
        }
        page = next;
    }
    Ok(())
}

// Whether a page isn't there, or has this stamp.
fn is_wrong(stamps: &[u32], page: u32, stamp: u32) -> bool
    ensures { IsTrue result
        ↔ ((length stamps.now ≤ page) ⊎ (get_or stamps.now page 0 ≡ stamp)) }
{
    match stamps.get(page as usize) {
        Some(found) => *found == stamp,
        None => true,
    }
}

// The page behind a page on its chain. It is seen on the page where that is held, and else on the
// disk's, whose header is tested.
fn page_behind<R: PageDisk>(
    disk: &mut R,
    overlay: &Overlay,
    space: u32,
    number: u32,
) -> Result<Option<u32>, RecoverRefusal>
    ensures behind { IfOk result (λ next. ForImage (R.state disk.old).told overlay.now
        (λ m image. next ≡ next_in image space number)) }
    ensures cause { IfErr result (HeaderOn (R.state disk.old).told overlay.now) }
    ensures known { IsErrOf result RecoverRefusal.Incomplete → ⊥ }
    ensures reads { Reads (IsErrOf result RecoverRefusal.DiskFault)
        (R.state disk.old) (R.state disk.new) }
{
    let Some(sheet) = sheet_of(overlay, space) else {
        return Ok(None);
    };
    match behind_in(disk, sheet, space, number) {
        Ok(next) => Ok(next),
        Err(cause) => Err(not_fetched(space, number, cause)),
    }
}

#[tactic(auto, using(clone_overlay::proofs::Entries::get_cover))]
fn sheet_of(overlay: &Overlay, space: u32) -> Option<&Sheet>
    ensures { option_copied result ≡ finite.get overlay.now space }
{
    overlay.sheets().get(&space)
}

// The page behind a page of a space, by what is held of the space and by the disk.
fn behind_in<R: PageDisk>(
    disk: &mut R,
    sheet: &Sheet,
    space: u32,
    number: u32,
) -> Result<Option<u32>, FetchRefusal>
    ensures sees { IfOk result (SeesBehind (R.state disk.old).told space number sheet.now) }
    ensures header { IsErrOf result FetchRefusal.Header
        → GivesMisplaced (R.state disk.old).told space number sheet.now }
    ensures reads { Reads (IsErrOf result FetchRefusal.DiskFault)
        (R.state disk.old) (R.state disk.new) }
{
    if let Some(page) = sheet.page(number) {
        return Ok(next_page(page));
    }
    if number >= sheet.kept() {
        return Ok(None);
    }
    behind_read(disk, space, number)
}

// The page behind a page that is read for it, whose header is tested. It is a function of its own
// since a page in a local variable costs each call its bytes.
#[inline(never)]
fn behind_read<R: PageDisk>(
    disk: &mut R,
    space: u32,
    number: u32,
) -> Result<Option<u32>, FetchRefusal>
    ensures reads { IfOk result (ReadsBehind (R.state disk.old).told space number) }
    ensures header { IsErrOf result FetchRefusal.Header
        → GivesAgainst (R.state disk.old).told space number }
    ensures asks { Reads (IsErrOf result FetchRefusal.DiskFault)
        (R.state disk.old) (R.state disk.new) }
{
    let mut page = Page::zero();
    match disk.read_page(space, number, page.bytes_mut()) {
        Ok(()) => {}
        Err(_) => return Err(FetchRefusal::DiskFault),
    }
    if page.check(space, number) {
        Ok(next_page(&page))
    } else {
        Err(FetchRefusal::Header)
    }
}
