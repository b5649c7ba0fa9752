//! The pages of a space over those of a disk. `count` is how many there are, and of the disk's own
//! only the first `kept` count, never more than `count`. A page that is held stands for the
//! disk's.
ghost use Rattle.std.specs.Prelude.{◌≡◌, ◌↔◌, ◌≤◌, ◌<◌, IsTrue, IsSome, is_some, OnOk, OnErr, IsOk, IfOk, IsErrOf, option_copied, length, None};
ghost use Rattle.std.specs.FinMap as finite;
ghost use Rattle.clone_page.specs.Bytes.{put_at};
ghost use Rattle.clone_page.specs.Header.{IsAllowed};
ghost use Rattle.clone_mtr.specs.Effects.{effect};
ghost use Rattle.clone_mtr.specs.References.{record_of};
ghost use Rattle.clone_outside.specs.DiskCalls.{Reads};
ghost use Rattle.clone_outside.specs.Disk.{ForTold, GivesQuiet};
ghost use Rattle.clone_overlay.specs.Covers.{holding, with_leaf, leaf_edited, stretched_to, leaves_of};
ghost use Rattle.clone_overlay.specs.Shown.{IsPage};
ghost use Rattle.clone_overlay.specs.Answers.{Fetched, GivesAgainst, GivesMisplaced};

use crate::FetchRefusal;
use clone_mtr::RecordRef;
use clone_outside::PageDisk;
use clone_page::Page;
use std::alloc::{AllocError, Global};
use std::collections::BTreeMap;
use std::marker::Model;

/// Pages by their numbers.
pub type Leaves = BTreeMap<u32, Page>;

/// The pages of a space: those that are held, and how many there are of the disk's and in all.
#[derive(Drop)]
pub struct Sheet {
    kept: u32,
    count: u32,
    leaves: Leaves,
}

impl Model for Sheet {
    ghost use Rattle.std.specs.Prelude.{◌≤◌};
    ghost use Rattle.clone_overlay.specs.Covers.{Cover, cover_code, leaves_of};

    ghost Value = { Cover };

    ghost coded = { cover_code };

    ghost view = { λ s. record {
      kept = s.kept;
      count = s.count;
      leaves = leaves_of s.leaves.entries;
    } };

    ghost invariant = { λ s. s.kept ≤ s.count };
}

impl Sheet {
    /// A space of so many pages, of which the first `kept` are the disk's. None is held.
    pub fn new(alloc: Global, kept: u32, count: u32) -> Sheet
        requires { kept ≤ count }
        ensures { result ≡ record { kept = kept; count = count; leaves = finite.empty } }
    {
        Sheet {
            kept,
            count,
            leaves: BTreeMap::new(alloc),
        }
    }

    /// How many pages there are.
    pub fn count(&self) -> u32
        ensures { result ≡ self.now.count }
    {
        self.count
    }

    /// How many of the disk's pages count.
    pub fn kept(&self) -> u32
        ensures value { result ≡ self.now.kept }
        ensures most { self.now.kept ≤ self.now.count }
    {
        self.kept
    }

    /// The pages that are held.
    pub fn leaves(&self) -> &Leaves
        ensures { leaves_of result.now.entries ≡ self.now.leaves }
    {
        &self.leaves
    }

    /// The page, if it is held.
    pub fn page(&self, number: u32) -> Option<&Page>
        ensures { option_copied result ≡ finite.get self.now.leaves number }
    {
        page_in(&self.leaves, number)
    }

    /// Holds the page, as the disk gives it or as an unused one, if it is there and isn't held yet.
    /// After a refusal no page is held that wasn't. `Header` comes where what the disk gives may
    /// not stand at this place.
    pub fn fetch<D: PageDisk>(
        &mut self,
        disk: &mut D,
        space: u32,
        number: u32,
    ) -> Result<(), FetchRefusal>
        ensures ok { OnOk result (Fetched (D.state disk.old).told space number self.old self.new) }
        ensures header { IsErrOf result FetchRefusal.Header
            → GivesMisplaced (D.state disk.old).told space number self.old }
        ensures reads { Reads (IsErrOf result FetchRefusal.DiskFault)
            (D.state disk.old) (D.state disk.new) }
    {
        if self.is_ready(number) {
            return Ok(());
        }
        self.bring(disk, space, number)
    }

    // Holds a page that isn't held yet. It is a function of its own since a page in a local variable
    // costs each call its bytes, and `fetch` mostly finds the page held.
    #[inline(never)]
    fn bring<D: PageDisk>(
        &mut self,
        disk: &mut D,
        space: u32,
        number: u32,
    ) -> Result<(), FetchRefusal>
        requires there { number < self.old.count }
        requires free { finite.get self.old.leaves number ≡ None }
        ensures ok { OnOk result (Fetched (D.state disk.old).told space number self.old self.new) }
        ensures header { IsErrOf result FetchRefusal.Header
            → GivesMisplaced (D.state disk.old).told space number self.old }
        ensures reads { Reads (IsErrOf result FetchRefusal.DiskFault)
            (D.state disk.old) (D.state disk.new) }
    {
        if number >= self.kept {
            return Ok(self.hold(number, Page::zero())?);
        }
        match read(disk, space, number) {
            Ok(page) => Ok(self.hold(number, page)?),
            Err(refusal) => Err(refusal),
        }
    }

    // Whether the page is held, or isn't there.
    fn is_ready(&self, number: u32) -> bool
        ensures { IsTrue result ↔ (number < self.now.count
            → IsSome (finite.get self.now.leaves number)) }
    {
        if number >= self.count {
            return true;
        }
        has_in(&self.leaves, number)
    }

    // Holds a page.
    fn hold(&mut self, number: u32, page: Page) -> Result<(), AllocError>
        ensures { OnOk result (self.new ≡ holding number page self.old) }
    {
        insert_in(&mut self.leaves, number, page)
    }

    /// Gives the space at least so many pages.
    pub fn extend(&mut self, count: u32)
        ensures { self.new ≡ stretched_to count self.old }
    {
        self.count = self.count.max(count);
    }

    /// Does to a page what the record says, if the page is held. `lsn` is the end of its
    /// mini-transaction.
    pub fn change(&mut self, number: u32, entry: &RecordRef, lsn: u64)
        ensures { self.new ≡ with_leaf number (effect lsn (record_of entry.now)) self.old }
    {
        change_in(&mut self.leaves, number, entry, lsn);
    }

    /// Puts bytes on a page from an offset on, if the page is held. The page LSN stays.
    pub fn lay(&mut self, number: u32, offset: u16, bytes: &[u8])
        requires { IsAllowed offset (length bytes.now) }
        ensures { self.new ≡ with_leaf number (put_at offset bytes.now) self.old }
    {
        lay_in(&mut self.leaves, number, offset, bytes);
    }
}

// Reads a page and tests its header.
fn read<D: PageDisk>(disk: &mut D, space: u32, number: u32) -> Result<Page, FetchRefusal>
    ensures given { IfOk result (λ page. ForTold (D.state disk.old).told
        (λ m. GivesQuiet m space number page)) }
    ensures page { IfOk result (λ page. IsPage space number page) }
    ensures header { IsErrOf result FetchRefusal.Header
        → GivesAgainst (D.state disk.old).told space number }
    ensures reads { Reads (IsErrOf result FetchRefusal.DiskFault)
        (D.state disk.old) (D.state disk.new) }
{
    let mut page = Page::zero();
    match disk.read_page(space, number, page.bytes_mut()) {
        Ok(()) => {}
        Err(_) => return Err(FetchRefusal::DiskFault),
    }
    if page.check(space, number) {
        Ok(page)
    } else {
        Err(FetchRefusal::Header)
    }
}

#[tactic(auto, using(crate::proofs::Entries::get_leaf))]
fn has_in(leaves: &Leaves, number: u32) -> bool
    ensures { result ≡ is_some (finite.get (leaves_of leaves.now.entries) number) }
{
    leaves.contains_key(&number)
}

#[tactic(auto, using(crate::proofs::Entries::get_leaf))]
fn page_in(leaves: &Leaves, number: u32) -> Option<&Page>
    ensures { option_copied result ≡ finite.get (leaves_of leaves.now.entries) number }
{
    leaves.get(&number)
}

fn insert_in(leaves: &mut Leaves, number: u32, page: Page) -> Result<(), AllocError>
    ensures { OnOk result (leaves_of leaves.new.entries
        ≡ finite.insert (leaves_of leaves.old.entries) number page) }
{
    leaves.insert(number, page)?;
    Ok(())
}

fn change_in(leaves: &mut Leaves, number: u32, entry: &RecordRef, lsn: u64)
    ensures { leaves_of leaves.new.entries
        ≡ leaf_edited (leaves_of leaves.old.entries) number (effect lsn (record_of entry.now)) }
{
    if let Some(page) = leaves.get_mut(&number) {
        entry.apply(page, lsn);
    }
}

fn lay_in(leaves: &mut Leaves, number: u32, offset: u16, bytes: &[u8])
    requires { IsAllowed offset (length bytes.now) }
    ensures { leaves_of leaves.new.entries
        ≡ leaf_edited (leaves_of leaves.old.entries) number (put_at offset bytes.now) }
{
    if let Some(page) = leaves.get_mut(&number) {
        page.write_at(offset, bytes);
    }
}
