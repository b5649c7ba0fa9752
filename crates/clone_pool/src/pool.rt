//! The frames, and the orders beside them. No page has two frames, also counting those set aside
//! for one, and no frame was used later than the count of uses says. The orders are always those of
//! the frames as they are. A frame keeps the rule of `frame`. There are fewer than 2^32 frames.
ghost use Rattle.std.specs.Prelude.{◌≡◌, ◌<◌, ◌≤◌, ◌-◌, ◌^◌, ℕ, None, true, false, IfOk, IfErr, IsErr, IsErrOf, IfNone, IfSome, OnOk, length, replicate, slice_set};
ghost use Rattle.std.specs.Option.{ForSome};
ghost use Rattle.std.specs.List.{filter_map};
ghost use Rattle.clone_outside.specs.DiskCalls.{Reads};
ghost use Rattle.clone_outside.specs.Disk.{ForTold, GivesQuiet};
ghost use Rattle.clone_pool.specs.Frames.{no_frame, frame_at, name_of, holder, loader, claimant, HoldsPage, ClaimsPage, IsInFlight, is_dirty, is_waiting, open_page, page_changed, aside_for, emptied, filled, pinned, unpinned, changed, begun, landed, failed, discarded, next_use};

use crate::frame::left_in;
use crate::orders::Orders;
use crate::tournament::NO_NUMBER;
use crate::{Content, Frame, PageName};
use clone_mtr::Record;
use clone_outside::PageDisk;
use clone_page::Page;
use std::alloc::{AllocError, Global};
use std::marker::Model;

/// Why a page didn't come into a frame.
#[derive(Clone, Copy, Debug, PartialEq, Eq)]
pub enum FetchRefusal {
    /// Each of so many frames is pinned, dirty or set aside for another page. A page on its way to
    /// the disk, or whose write failed, is dirty.
    PoolFull { frames: u32 },
    /// The disk failed, and its count of faults rose.
    DiskFault,
}

// The number of a use behind which uses are no longer counted.
const LAST_USE: u64 = NO_NUMBER - 1;

/// Pages in frames. After it is made no call but `open_pages` takes memory.
///
/// A frame is found by a hash, and the one that makes way in as many steps as the number of frames
/// has binary digits. Dirty pages are in one row: one that becomes dirty now joins at its end, and
/// the first leaves it, in a few steps each; any other moves the shorter side of the row.
#[derive(Drop)]
pub struct Pool {
    frames: Vec<Frame>,
    uses: u64,
    missed: Option<PageName>,
    orders: Orders,
}

impl Model for Pool {
    ghost use Rattle.clone_pool.specs.Pool.{Frames, IsKept};

    ghost Value = { Frames };

    ghost view = { λ p. record { frames = p.frames.items; uses = p.uses; missed = p.missed } };

    ghost invariant = { λ p. IsKept
        (record { frames = p.frames.items; uses = p.uses; missed = p.missed }) p.orders };
}

impl Pool {
    ghost use Rattle.clone_pool.specs.Pool.{Frames, IsPool, Fetches, Freshens, Fills, Empties, IsVictim, IsFrameFor, HasNoFrameFor, HasVictim, AreKept, AreClean, IsOldest, AreNotWaiting, AreOpenPages, IsNextToFlush, IsHolder, IsClaimant, KeepsInUse, KeepsOthers, HasPinRoom, used, with_frame, with_fresh, discarded_at};

    /// So many frames without pages. This makes all that the pool keeps.
    pub fn new(alloc: Global, count: u32) -> Result<Pool, AllocError>
        ensures { IfOk result
            (λ pool. pool ≡ record {
              frames = replicate count no_frame;
              uses = 0;
              missed = None;
            }) }
    {
        let mut frames = Vec::with_capacity(alloc, count as usize)?;
        for _ in 0..count {
            frames.push_reserved(Frame::unused());
        }
        Ok(Pool {
            frames,
            uses: 0,
            missed: None,
            orders: Orders::new(alloc, count)?,
        })
    }

    /// Brings a page into a frame, and answers the frame's number. It counts as a use of the frame.
    ///
    /// A page without a frame gets the one that is set aside for it. Else it gets one that has no
    /// page, or else the one used least recently of those that are neither pinned nor dirty nor set
    /// aside. It is read straight into that. The error is `PoolFull` exactly where there is none,
    /// and nothing has changed then; or `DiskFault`, and then the frame has no page, and the page
    /// is the one that was missed last.
    pub fn fetch<D: PageDisk>(
        &mut self,
        disk: &mut D,
        space: u32,
        page: u32,
    ) -> Result<u32, FetchRefusal>
        ensures answer { Fetches
            (record { space = space; number = page }) self.old self.new result }
        ensures held { IfOk result
            (IsHolder (record { space = space; number = page }) self.new.frames) }
        ensures others { IfOk result (λ at. KeepsOthers at self.old.frames self.new.frames) }
        ensures kept { KeepsInUse self.old.frames self.new.frames }
        ensures reads { Reads (IsErrOf result FetchRefusal.DiskFault)
            (D.state disk.old) (D.state disk.new) }
        ensures read { IfOk result
            (λ at. holder self.old.frames (record { space = space; number = page }) ≡ None
            → ForTold (D.state disk.old).told
            (λ m. GivesQuiet m space page (frame_at self.new.frames at).page)) }
    {
        let name = PageName {
            space,
            number: page,
        };
        if let Some(at) = self.find(name) {
            self.touch(at);
            self.laws();
            return Ok(at);
        }
        let Some(at) = self.frame_for(name) else {
            let frames = self.frames.len() as u32;
            return Err(FetchRefusal::PoolFull { frames });
        };
        self.load(disk, at, name)?;
        self.laws();
        Ok(at as u32)
    }

    /// Takes a frame for a new page, which lies past the end of its file, and answers the frame's
    /// number. The page is one of zero bytes, and pinned. It counts as a use of the frame.
    ///
    /// The frame is found as `fetch` finds one, and the disk isn't asked. The error is `PoolFull`
    /// exactly where there is none, and nothing has changed then. A page that has a frame is pinned
    /// there as it is.
    ///
    /// Until a change makes it, the page goes with its last pin.
    pub fn fresh(&mut self, space: u32, page: u32) -> Result<u32, FetchRefusal>
        requires room { ForSome (holder self.old.frames (record { space = space; number = page }))
            (λ at. HasPinRoom (frame_at self.old.frames at)) }
        ensures answer { Freshens
            (record { space = space; number = page }) self.old self.new result }
        ensures held { IfOk result
            (IsHolder (record { space = space; number = page }) self.new.frames) }
        ensures pinned { IfOk result (λ at. 0 < (frame_at self.new.frames at).pins) }
        ensures others { IfOk result (λ at. KeepsOthers at self.old.frames self.new.frames) }
    {
        let name = PageName {
            space,
            number: page,
        };
        if let Some(at) = self.find(name) {
            self.pin(at);
            self.touch(at);
            self.laws();
            return Ok(at);
        }
        let Some(at) = self.frame_for(name) else {
            let frames = self.frames.len() as u32;
            return Err(FetchRefusal::PoolFull { frames });
        };
        self.take(at, name);
        self.laws();
        Ok(at as u32)
    }

    /// The page that was asked of the disk when a fetch last ended with `DiskFault`, if one did.
    pub fn missed(&self) -> Option<PageName>
        ensures { result ≡ self.now.missed }
    {
        self.missed
    }

    /// Sets a frame aside for a page that is to be loaded, and answers the frame's number. It is
    /// the one that makes way, and has no page until the page is fetched. Meanwhile it doesn't make
    /// way.
    pub fn set_aside(&mut self, name: PageName) -> u32
        requires room { HasVictim self.old.frames }
        requires absent { holder self.old.frames name ≡ None }
        requires unloaded { loader self.old.frames name ≡ None }
        ensures victim { IsVictim self.old.frames result }
        ensures aside { self.new ≡ with_frame result (aside_for name) self.old }
    {
        let Some(at) = self.victim() else {
            unreachable!();
        };
        self.frames[at].set_aside(name);
        self.orders.refresh(&self.frames, at);
        at as u32
    }

    /// The frame that is set aside for a page, if there is one, is so no more.
    pub fn give_up_loading(&mut self, name: PageName)
        ensures { self.new ≡ discarded_at (loader self.old.frames name) self.old }
    {
        self.laws();
        if let Some(at) = self.loader(name) {
            self.discard(at);
        }
    }

    /// The number of the frame that holds a page, if one does. It counts as no use.
    pub fn find(&self, name: PageName) -> Option<u32>
        ensures holder { result ≡ holder self.now.frames name }
        ensures held { IfSome result (IsHolder name self.now.frames) }
    {
        self.laws();
        let Some(at) = self.claimant(name) else {
            return None;
        };
        if self.frames[self.claimed(at)].is_loading() {
            return None;
        }
        Some(at)
    }

    /// The number of the frame that is set aside for a page, if one is.
    pub fn loader(&self, name: PageName) -> Option<u32>
        ensures loader { result ≡ loader self.now.frames name }
        ensures claims { IfSome result (IsClaimant name self.now.frames) }
    {
        self.laws();
        let Some(at) = self.claimant(name) else {
            return None;
        };
        let index = self.claimed(at);
        if self.frames[index].is_loading() {
            return Some(at);
        }
        None
    }

    /// The number of the frame that holds a page or is set aside for it, if one does.
    pub fn claimant(&self, name: PageName) -> Option<u32>
        ensures claimant { result ≡ claimant self.now.frames name }
        ensures claims { IfSome result (IsClaimant name self.now.frames) }
    {
        match self.orders.names.find(name) {
            Some(at) => Some(at as u32),
            None => None,
        }
    }

    /// The page in a frame.
    pub fn frame(&self, at: u32) -> &Page
        requires { HoldsPage (frame_at self.now.frames at) }
        ensures { result.now ≡ (frame_at self.now.frames at).page }
    {
        &self.frames[self.frame_number(at)].page
    }

    /// How the page in a frame stands to the disk, with the page.
    pub fn state(&self, at: u32) -> &Frame
        requires { HoldsPage (frame_at self.now.frames at) }
        ensures { result.now ≡ frame_at self.now.frames at }
    {
        &self.frames[self.frame_number(at)]
    }

    /// Keeps the page in its frame until it is unpinned as often.
    pub fn pin(&mut self, at: u32)
        requires holds { HoldsPage (frame_at self.old.frames at) }
        requires room { HasPinRoom (frame_at self.old.frames at) }
        ensures { self.new ≡ with_frame at pinned self.old }
    {
        let at = self.frame_number(at);
        self.frames[at].pin();
        self.orders.refresh_use(&self.frames, at);
    }

    /// Takes a pin away. A new page that no change made goes with its last pin.
    pub fn unpin(&mut self, at: u32)
        requires holds { HoldsPage (frame_at self.old.frames at) }
        requires pinned { 0 < (frame_at self.old.frames at).pins }
        ensures { self.new ≡ with_frame at unpinned self.old }
    {
        let at = self.frame_number(at);
        self.frames[at].unpin();
        self.orders.refresh(&self.frames, at);
    }

    /// Does to the page in a frame what a record says of it. The record is of the mini-transaction
    /// from `start` to `end`. The page is dirty then, from `start` on if it wasn't dirty before.
    pub fn change(&mut self, at: u32, entry: &Record, start: u64, end: u64)
        requires holds { HoldsPage (frame_at self.old.frames at) }
        requires page { page_changed entry.now ≡ name_of (frame_at self.old.frames at) }
        requires order { start < end }
        ensures { self.new ≡ with_frame at (changed entry.now start end) self.old }
    {
        let at = self.frame_number(at);
        self.frames[at].change(entry, start, end);
        self.orders.refresh(&self.frames, at);
    }

    /// A flush of a dirty page begins: what is changed from now on isn't in it.
    pub fn begin_flush(&mut self, at: u32)
        requires holds { HoldsPage (frame_at self.old.frames at) }
        requires waits { is_waiting (frame_at self.old.frames at) ≡ true }
        ensures { self.new ≡ with_frame at begun self.old }
    {
        let at = self.frame_number(at);
        self.frames[at].begin_flush();
    }

    /// A flush ends, with the page on the disk as it was when the flush began. The page is dirty
    /// from the first change after that, or clean where there was none.
    pub fn land_flush(&mut self, at: u32)
        requires holds { HoldsPage (frame_at self.old.frames at) }
        requires flight { IsInFlight (frame_at self.old.frames at) }
        ensures { self.new ≡ with_frame at landed self.old }
    {
        let at = self.frame_number(at);
        self.frames[at].land_flush();
        self.orders.refresh(&self.frames, at);
    }

    /// A flush ends in a failure. The page is dirty as before.
    pub fn fail_flush(&mut self, at: u32)
        requires holds { HoldsPage (frame_at self.old.frames at) }
        requires flight { IsInFlight (frame_at self.old.frames at) }
        ensures { self.new ≡ with_frame at failed self.old }
    {
        let at = self.frame_number(at);
        self.frames[at].fail_flush();
    }

    /// The frame of the dirty page to be flushed next, or none where no dirty page waits for that.
    /// Of those whose flush isn't under way it is the one with the least oldest change, and of
    /// several with the same the first by space and page.
    pub fn next_to_flush(&self) -> Option<u32>
        ensures none { IfNone result (AreNotWaiting self.now.frames) }
        ensures some { IfSome result (IsNextToFlush self.now.frames) }
        ensures held { IfSome result (λ at. HoldsPage (frame_at self.now.frames at)) }
    {
        match self.orders.dirty.first_waiting(&self.frames) {
            Some(at) => Some(at as u32),
            None => None,
        }
    }

    /// The LSN at which the oldest change begins that isn't on the disk, or none where no page is
    /// dirty.
    pub fn oldest(&self) -> Option<u64>
        ensures none { IfNone result (AreClean self.now.frames) }
        ensures some { IfSome result (IsOldest self.now.frames) }
    {
        match self.orders.dirty.first() {
            Some(at) => self.frames[at].oldest,
            None => None,
        }
    }

    /// The pages whose write counts as open, since a flush of each has begun and not landed: each
    /// once, by its space and its number there, in ascending order.
    pub fn open_pages(&self, alloc: Global) -> Result<Vec<(u32, u32)>, AllocError>
        ensures { IfOk result (λ pages. AreOpenPages self.now.frames pages.items) }
    {
        let mut pages = open_pages(alloc, &self.frames)?;
        pages.sort_unstable();
        Ok(pages)
    }

    /// Gives up the page in a frame, which isn't pinned, with all that was changed of it. A frame
    /// that is set aside is so no more.
    pub fn discard(&mut self, at: u32)
        requires claims { ClaimsPage (frame_at self.old.frames at) }
        requires free { (frame_at self.old.frames at).pins ≡ 0 }
        ensures { self.new ≡ with_frame at discarded self.old }
    {
        let at = self.claimed(at);
        self.frames[at].discard();
        self.orders.refresh(&self.frames, at);
    }

    /// What holds of every pool.
    pub fn laws(&self)
        ensures { IsPool self.now }
    {
        let _ = &self.uses;
    }

    // The number of a frame that holds a page.
    fn frame_number(&self, at: u32) -> usize
        requires { HoldsPage (frame_at self.now.frames at) }
        ensures same { result ≡ at }
        ensures within { result < length self.now.frames }
    {
        let _ = &self.uses;
        at as usize
    }

    // The number of a frame that claims a page.
    fn claimed(&self, at: u32) -> usize
        requires { ClaimsPage (frame_at self.now.frames at) }
        ensures same { result ≡ at }
        ensures within { result < length self.now.frames }
    {
        let _ = &self.uses;
        at as usize
    }

    // The frame for a page that has none: its own loader, or else the one that makes way.
    fn frame_for(&self, name: PageName) -> Option<usize>
        ensures none { IfNone result (HasNoFrameFor name self.now.frames) }
        ensures some { IfSome result (IsFrameFor name self.now.frames) }
    {
        self.laws();
        match self.loader(name) {
            Some(at) => Some(at as usize),
            None => self.victim(),
        }
    }

    // A frame that may go, and was used no later than any other of these.
    fn victim(&self) -> Option<usize>
        ensures none { IfNone result (AreKept self.now.frames) }
        ensures some { IfSome result (IsVictim self.now.frames) }
    {
        match self.orders.going.first() {
            Some(at) => Some(at),
            None => None,
        }
    }

    // A frame was used.
    fn touch(&mut self, at: u32)
        requires { HoldsPage (frame_at self.old.frames at) }
        ensures { self.new ≡ used at self.old }
    {
        let at = self.frame_number(at);
        self.uses = next_use(self.uses);
        self.frames[at].touch(self.uses);
        self.orders.refresh_use(&self.frames, at);
    }

    // Takes a frame for a new page, in the place of the one that it has.
    fn take(&mut self, at: usize, name: PageName)
        requires at { IsFrameFor name self.old.frames at }
        requires new { holder self.old.frames name ≡ None }
        ensures { self.new ≡ with_fresh name at self.old }
    {
        self.uses = next_use(self.uses);
        self.frames[at].freshen(name, self.uses);
        self.orders.refresh(&self.frames, at);
    }

    // Reads a page into a frame, in the place of the one that it has.
    fn load<D: PageDisk>(
        &mut self,
        disk: &mut D,
        at: usize,
        name: PageName,
    ) -> Result<(), FetchRefusal>
        requires at { IsFrameFor name self.old.frames at }
        requires new { holder self.old.frames name ≡ None }
        ensures ok { OnOk result (Fills name at self.old self.new) }
        ensures err { IfErr result
            (λ e. (e ≡ FetchRefusal.DiskFault) × Empties name at self.old self.new) }
        ensures reads { Reads (IsErr result) (D.state disk.old) (D.state disk.new) }
        ensures read { OnOk result
            (ForTold (D.state disk.old).told
            (λ m. GivesQuiet m name.space name.number (frame_at self.new.frames at).page)) }
    {
        let number = next_use(self.uses);
        let read = read_into(disk, &mut self.frames[at], name, number);
        self.orders.refresh(&self.frames, at);
        match read {
            Ok(()) => {}
            Err(refusal) => {
                self.missed = Some(name);
                return Err(refusal);
            }
        }
        self.uses = number;
        Ok(())
    }
}

// The pages whose write counts as open, in the order of their frames.
fn open_pages(alloc: Global, frames: &[Frame]) -> Result<Vec<(u32, u32)>, AllocError>
    ensures { IfOk result (λ pages. pages.items ≡ filter_map open_page frames.now) }
{
    frames
        .iter()
        .filter_map(|frame| frame.open_page())
        .collect(alloc)
}

// Reads a page into a frame that is then in its use of this number.
fn read_into<D: PageDisk>(
    disk: &mut D,
    frame: &mut Frame,
    name: PageName,
    number: u64,
) -> Result<(), FetchRefusal>
    ensures ok { OnOk result (frame.new ≡ filled name frame.new.page number frame.old) }
    ensures err { IfErr result
        (λ e. (e ≡ FetchRefusal.DiskFault) × (frame.new ≡ emptied frame.new.page frame.old)) }
    ensures reads { Reads (IsErr result) (D.state disk.old) (D.state disk.new) }
    ensures read { OnOk result
        (ForTold (D.state disk.old).told (λ m. GivesQuiet m name.space name.number frame.new.page)) }
{
    frame.content = left_in(frame.content);
    frame.last_use = 0;
    match disk.read_page(name.space, name.number, frame.page.bytes_mut()) {
        Ok(()) => {}
        Err(_) => return Err(FetchRefusal::DiskFault),
    }
    frame.content = Content::Held(name);
    frame.last_use = number;
    Ok(())
}

// The number of the next use.
fn next_use(uses: u64) -> u64
    ensures { result ≡ next_use uses }
{
    uses.saturating_add(1).min(LAST_USE)
}
