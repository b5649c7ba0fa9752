ghost use Rattle.std.specs.Prelude.{◌≡◌, ◌≤◌, OnOk, OnErr, IfOk, IsErrOf, IsOk, option_copied, option_map, length};
ghost use Rattle.std.specs.FinMap as finite;
ghost use Rattle.clone_page.specs.Bytes.{put_at};
ghost use Rattle.clone_page.specs.Header.{IsAllowed};
ghost use Rattle.clone_mtr.specs.Effects.{effect};
ghost use Rattle.clone_mtr.specs.References.{record_of};
ghost use Rattle.clone_outside.specs.DiskCalls.{Asks, Reads};
ghost use Rattle.clone_outside.specs.Disk.{ForTold};
ghost use Rattle.clone_image.specs.Image.{Image, page_of, page_count, with_edit, edited, after_record, MakesNoPage};
ghost use Rattle.clone_overlay.specs.Covers.{covers_of, with_cover, with_leaf, stretched_to, unused};
ghost use Rattle.clone_overlay.specs.Images.{image_of};
ghost use Rattle.clone_overlay.specs.Opened.{whole, with_space, with_spaces};
ghost use Rattle.clone_overlay.specs.Shown.{Shows, ShowsSame, ForBase, IsReady, IsReadyFor, IsMisplaced};
ghost use Rattle.clone_overlay.specs.Answers.{FetchedIn, HasMisplaced};

use crate::Sheet;
use clone_base::REDO_SPACE;
use clone_mtr::RecordRef;
use clone_outside::{PageDisk, Refusal};
use clone_page::Page;
use std::alloc::{AllocError, Global};
use std::collections::BTreeMap;
use std::marker::Model;

/// Why a page wasn't fetched.
#[derive(Clone, Copy, Debug, PartialEq, Eq)]
pub enum FetchRefusal {
    /// What the disk gives may not stand at this place.
    Header,
    /// The disk failed, and its count of faults rose.
    DiskFault,
    /// There was no memory.
    NoMemory,
}

impl From<AllocError> for FetchRefusal {
    ghost use Rattle.std.specs.Prelude.{◌≡◌};
    ghost use Rattle.clone_overlay.specs.declared.overlay.FetchRefusal.TheVariants as refusals;

    ghost from_gives = { λ _ refusal. refusal ≡ refusals.NoMemory };

    fn from(_: AllocError) -> Self {
        FetchRefusal::NoMemory
    }
}

/// The sheets of spaces by their numbers.
pub type Sheets = BTreeMap<u32, Sheet>;

/// The pages of a disk with changes over them.
#[derive(Drop)]
pub struct Overlay {
    sheets: Sheets,
}

impl Model for Overlay {
    ghost use Rattle.std.specs.FinMap as finite;
    ghost use Rattle.std.specs.Coded.{coded_ℕ};
    ghost use Rattle.clone_overlay.specs.Covers.{Overlay as Covers, cover_code, covers_of};

    ghost Value = { Covers };

    ghost coded = { finite.code coded_ℕ cover_code };

    ghost view = { λ o. covers_of o.sheets.entries };
}

impl Overlay {
    /// An overlay without spaces.
    pub fn new(alloc: Global) -> Overlay
        ensures { result ≡ finite.empty }
    {
        Overlay {
            sheets: BTreeMap::new(alloc),
        }
    }

    /// The disk as it is: its spaces below the redo's, with no page held.
    pub fn open<D: PageDisk>(alloc: Global, disk: &mut D) -> Result<Overlay, Refusal>
        ensures shows { IfOk result (λ overlay. ForTold (D.state disk.old).told
            (λ m. Shows (image_of m) (image_of m) overlay)) }
        ensures asks { Asks (D.state disk.old) (D.state disk.new) result }
    {
        let spaces = disk.spaces(alloc)?;
        let sheets = sheets_of(alloc, disk, &spaces)?;
        Ok(Overlay { sheets })
    }

    /// The sheet of each space that is there.
    pub fn sheets(&self) -> &Sheets
        ensures { covers_of result.now.entries ≡ self.now }
    {
        &self.sheets
    }

    /// How many pages a space has, or none where it isn't there.
    pub fn pages(&self, space: u32) -> Option<u32>
        ensures { (base image : Image) → Shows base image self.now
            → result ≡ page_count image space }
    {
        count_in(&self.sheets, space)
    }

    /// Makes the page ready: where it is there, it is held from now on. It is read from the disk
    /// once. `Header` comes where what the disk gives may not stand at this place.
    pub fn fetch<D: PageDisk>(
        &mut self,
        disk: &mut D,
        space: u32,
        number: u32,
    ) -> Result<(), FetchRefusal>
        ensures ready { OnOk result (IsReady self.new space number) }
        ensures shows { OnOk result (ShowsSame (D.state disk.old).told self.old self.new) }
        ensures header { IsErrOf result FetchRefusal.Header
            → ForBase (D.state disk.old).told self.old (IsMisplaced space number) }
        ensures reads { Reads (IsErrOf result FetchRefusal.DiskFault)
            (D.state disk.old) (D.state disk.new) }
    {
        fetch_in(&mut self.sheets, disk, space, number)
    }

    /// The page, if it is there.
    pub fn page(&self, space: u32, number: u32) -> Option<&Page>
        requires { IsReady self.now space number }
        ensures { (base image : Image) → Shows base image self.now
            → option_copied result ≡ page_of image space number }
    {
        let sheet = self.sheets.get(&space)?;
        if number >= sheet.count() {
            return None;
        }
        sheet.page(number)
    }

    /// Does to the pages what the record says. `lsn` is the end of its mini-transaction. After a
    /// refusal the overlay is as before.
    pub fn apply(&mut self, alloc: Global, entry: &RecordRef, lsn: u64) -> Result<(), AllocError>
        requires { IsReadyFor self.old (record_of entry.now) }
        ensures ok { OnOk result ((base image : Image) → Shows base image self.old
            → Shows base (after_record lsn image (record_of entry.now)) self.new) }
        ensures err { OnErr result (self.new ≡ self.old) }
        ensures without_memory { MakesNoPage (record_of entry.now) → IsOk result }
    {
        match entry {
            RecordRef::Init { space, page, .. } | RecordRef::Write { space, page, .. } => {
                change_in(&mut self.sheets, *space, *page, entry, lsn);
                Ok(())
            }
            RecordRef::Extend { space, pages } => {
                extend_in(&mut self.sheets, *space, *pages);
                Ok(())
            }
            RecordRef::Create { space, pages } => {
                create_in(alloc, &mut self.sheets, *space, *pages)
            }
            RecordRef::Drop { space } => {
                remove_in(&mut self.sheets, *space);
                Ok(())
            }
        }
    }

    /// Puts bytes on a page from an offset on, if the page is there. The page LSN stays.
    pub fn lay(&mut self, space: u32, number: u32, offset: u16, bytes: &[u8])
        requires ready { IsReady self.old space number }
        requires allowed { IsAllowed offset (length bytes.now) }
        ensures { (base image : Image) → Shows base image self.old
            → Shows base (with_edit image space (edited number (put_at offset bytes.now)))
            self.new }
    {
        lay_in(&mut self.sheets, space, number, offset, bytes);
    }
}

// The sheets of these spaces, with no page held.
fn sheets_of<D: PageDisk>(alloc: Global, disk: &mut D, spaces: &[u32]) -> Result<Sheets, Refusal>
    ensures sheets { IfOk result (λ sheets. ForTold (D.state disk.old).told
        (λ m. covers_of sheets.entries ≡ with_spaces m finite.empty spaces.now)) }
    ensures asks { Asks (D.state disk.old) (D.state disk.new) result }
{
    let mut sheets = BTreeMap::new(alloc);
    for space in spaces {
        add(alloc, disk, &mut sheets, *space)?;
    }
    Ok(sheets)
}

// Adds a space of the disk, if it is there and no redo.
fn add<D: PageDisk>(
    alloc: Global,
    disk: &mut D,
    sheets: &mut Sheets,
    space: u32,
) -> Result<(), Refusal>
    ensures added { OnOk result (ForTold (D.state disk.old).told
        (λ m. covers_of sheets.new.entries ≡ with_space m (covers_of sheets.old.entries) space)) }
    ensures asks { Asks (D.state disk.old) (D.state disk.new) result }
{
    if space >= REDO_SPACE {
        return Ok(());
    }
    match disk.pages(space)? {
        Some(count) => Ok(put(alloc, sheets, space, count)?),
        None => Ok(()),
    }
}

// Puts a space of so many pages in, all of them the disk's.
fn put(alloc: Global, sheets: &mut Sheets, space: u32, count: u32) -> Result<(), AllocError>
    ensures { OnOk result (covers_of sheets.new.entries
        ≡ finite.insert (covers_of sheets.old.entries) space (whole count)) }
{
    sheets.insert(space, Sheet::new(alloc, count, count))?;
    Ok(())
}

fn fetch_in<D: PageDisk>(
    sheets: &mut Sheets,
    disk: &mut D,
    space: u32,
    number: u32,
) -> Result<(), FetchRefusal>
    ensures ok { OnOk result (FetchedIn (D.state disk.old).told space number
        (covers_of sheets.old.entries) (covers_of sheets.new.entries)) }
    ensures header { IsErrOf result FetchRefusal.Header
        → HasMisplaced (D.state disk.old).told space number (covers_of sheets.old.entries) }
    ensures reads { Reads (IsErrOf result FetchRefusal.DiskFault)
        (D.state disk.old) (D.state disk.new) }
{
    match sheets.get_mut(&space) {
        Some(sheet) => sheet.fetch(disk, space, number),
        None => Ok(()),
    }
}

#[tactic(auto, using(crate::proofs::Entries::get_cover))]
fn count_in(sheets: &Sheets, space: u32) -> Option<u32>
    ensures { result ≡ option_map (λ c. c.count) (finite.get (covers_of sheets.now.entries) space) }
{
    match sheets.get(&space) {
        Some(sheet) => Some(sheet.count()),
        None => None,
    }
}

// Changes the page that an INIT or a WRITE names, if it is there.
fn change_in(sheets: &mut Sheets, space: u32, number: u32, entry: &RecordRef, lsn: u64)
    ensures { covers_of sheets.new.entries
        ≡ with_cover (covers_of sheets.old.entries) space
        (with_leaf number (effect lsn (record_of entry.now))) }
{
    if let Some(sheet) = sheets.get_mut(&space) {
        sheet.change(number, entry, lsn);
    }
}

fn lay_in(sheets: &mut Sheets, space: u32, number: u32, offset: u16, bytes: &[u8])
    requires { IsAllowed offset (length bytes.now) }
    ensures { covers_of sheets.new.entries
        ≡ with_cover (covers_of sheets.old.entries) space
        (with_leaf number (put_at offset bytes.now)) }
{
    if let Some(sheet) = sheets.get_mut(&space) {
        sheet.lay(number, offset, bytes);
    }
}

// Gives a space at least so many pages, if it is there.
fn extend_in(sheets: &mut Sheets, space: u32, count: u32)
    ensures { covers_of sheets.new.entries
        ≡ with_cover (covers_of sheets.old.entries) space (stretched_to count) }
{
    if let Some(sheet) = sheets.get_mut(&space) {
        sheet.extend(count);
    }
}

// Makes a space of unused pages, in the place of one of the same number.
fn create_in(alloc: Global, sheets: &mut Sheets, space: u32, count: u32) -> Result<(), AllocError>
    ensures ok { OnOk result (covers_of sheets.new.entries
        ≡ finite.insert (covers_of sheets.old.entries) space (unused count)) }
    ensures err { OnErr result (covers_of sheets.new.entries ≡ covers_of sheets.old.entries) }
{
    sheets.insert(space, Sheet::new(alloc, 0, count))?;
    Ok(())
}

fn remove_in(sheets: &mut Sheets, space: u32)
    ensures { covers_of sheets.new.entries ≡ finite.remove (covers_of sheets.old.entries) space }
{
    sheets.remove(&space);
}
