//! Walks along the chain of a bucket. Whatever the pages tell, a walk ends, and behind it one page
//! at most stays pinned.
ghost use Rattle.std.specs.Prelude.{ℕ, ◌≡◌, ◌<◌, ◌≤◌, Err, IfErr, IfOk, IfSome, IsErrOf, IsTrue};
ghost use Rattle.std.specs.declared.option.Option.{Option};
ghost use Rattle.clone_outside.specs.Disk.{DiskImage};
ghost use Rattle.clone_outside.specs.DiskCalls.{Reads};
ghost use Rattle.clone_contents.specs.Contents.{contents_of};
ghost use Rattle.clone_pool.specs.declared.frame.PageName.{PageName};
ghost use Rattle.clone_pool.specs.Frames.{frame_at};
ghost use Rattle.clone_buffer.specs.Buffered.{Buffered, image_of};
ghost use Rattle.clone_plain.specs.declared.refusal.Cause.TheVariants.{DiskFault};
ghost use Rattle.clone_plain.specs.declared.refusal.EngineRefusal.TheVariants.{Because};
ghost use Rattle.clone_trx.specs.Kept.{Has};
ghost use Rattle.clone_trx.specs.Sound.{HasChain};
ghost use Rattle.clone_trx.specs.Walking.{Follows, IsKeptHeld, MayGoOn};
ghost use Rattle.clone_trx.specs.Ways.{FindsRoom, Holds, PinsAtMost, StaysStanding, Walks, WalksAll, chain_page, let_go_kept, onward};

use crate::hold::{hold, release};
use clone_buffer::Buffer;
use clone_model::MOST_PAGES;
use clone_outside::PageDisk;
use clone_page::Page;
use clone_plain::EngineRefusal;
use clone_row::{find, free_slot, next_page};

/// A walk along the chain of a bucket, from its first page on: for the slot that is bound to a key,
/// and, if it is for room, for the first one that was never used where none is bound.
#[derive(Clone, Copy)]
pub struct Course {
    pub table: u32,
    pub first: u32,
    pub key: u64,
    pub for_room: bool,
}

/// A page that a walk came to, which is pinned in this frame, and the slot for the key there, if it
/// has one.
#[derive(Clone, Copy)]
pub struct Spot {
    pub page: u32,
    pub at: u32,
    pub slot: Option<u16>,
}

/// What comes behind a page of a walk.
pub enum Step {
    /// The walk is at its end.
    Ends(Spot),
    /// It goes on at the page of this number, and this spot is kept meanwhile.
    GoesOn(u32, Option<Spot>),
}

/// Walks along a chain to the slot for a key. The page of the slot stays pinned, and where there is
/// no such slot, the last page of the chain. Refused where there is no frame for a page, and where
/// the disk fails.
pub fn walk<D: PageDisk>(
    buffer: &mut Buffer,
    disk: &mut D,
    course: Course,
) -> Result<Spot, EngineRefusal>
    requires table { 1 ≤ course.table }
    requires loose { PinsAtMost 0 buffer.old.pool.frames }
    requires chain { IsTrue buffer.old.right
        → HasChain (contents_of (image_of buffer.old)) course.table course.first }
    ensures walked { WalksAll course buffer.old buffer.new result }
    ensures has { IfOk result
        (λ spot. Has (chain_page course spot.page) spot.at buffer.new.pool.frames) }
    ensures reads { Reads (IsErrOf result (Because DiskFault))
        (D.state disk.old) (D.state disk.new) }
    ensures stands { StaysStanding buffer.old buffer.new
        (D.state disk.old).told (D.state disk.new).told }
{
    let mut page = course.first;
    let mut kept = None;
    let mut left = MOST_PAGES - 1;
    loop {
        match visit(buffer, disk, course, left, page, kept)? {
            Step::Ends(spot) => return Ok(spot),
            Step::GoesOn(next, spot) => {
                page = next;
                kept = spot;
                left -= 1;
            }
        }
    }
}

// Walks to a page, behind which so many more may be walked.
fn visit<D: PageDisk>(
    buffer: &mut Buffer,
    disk: &mut D,
    course: Course,
    left: u32,
    page: u32,
    kept: Option<Spot>,
) -> Result<Step, EngineRefusal>
    requires table { 1 ≤ course.table }
    requires may { MayGoOn course page kept buffer.old }
    ensures next { IfOk result (λ step. Follows course left page kept buffer.old buffer.new step) }
    ensures missed { IfErr result
        (λ refusal. Walks course left page kept buffer.old buffer.new (Err refusal)) }
    ensures reads { Reads (IsErrOf result (Because DiskFault))
        (D.state disk.old) (D.state disk.new) }
    ensures stands { StaysStanding buffer.old buffer.new
        (D.state disk.old).told (D.state disk.new).told }
{
    match hold(buffer, disk, course.table, page) {
        Ok(at) => Ok(look(buffer, course, left, page, at, kept)),
        Err(refusal) => {
            release_kept(buffer, kept);
            Err(refusal)
        }
    }
}

// Looks for the key on a page that is held, and lets go what isn't needed any more.
fn look(
    buffer: &mut Buffer,
    course: Course,
    left: u32,
    page: u32,
    at: u32,
    kept: Option<Spot>,
) -> Step
    requires table { 1 ≤ course.table }
    requires has { Has (chain_page course page) at buffer.old.pool.frames }
    requires kept { IsKeptHeld course kept buffer.old.pool.frames }
    ensures next { (first : Buffered) → MayGoOn course page kept first
        → Holds (chain_page course page) at first buffer.old
        → Follows course left page kept first buffer.new result }
    ensures stands { (told : Option DiskImage) → StaysStanding buffer.old buffer.new told told }
{
    buffer.laws();
    let found = buffer.frame(at);
    if let Some(slot) = find(found, course.key) {
        release_kept(buffer, kept);
        return Step::Ends(Spot {
            page,
            at,
            slot: Some(slot),
        });
    }
    let slot = room_on(found, course, kept);
    let here = Spot { page, at, slot };
    let Some(next) = page_behind(found, left) else {
        let Some(spot) = kept else {
            return Step::Ends(here);
        };
        release(buffer, at);
        return Step::Ends(spot);
    };
    if slot.is_some() {
        return Step::GoesOn(next, Some(here));
    }
    release(buffer, at);
    Step::GoesOn(next, kept)
}

// Lets go the page that was kept, if one was.
fn release_kept(buffer: &mut Buffer, kept: Option<Spot>)
    requires { IfSome kept (λ spot. 0 < (frame_at buffer.old.pool.frames spot.at).pins) }
    ensures is { buffer.new ≡ let_go_kept kept buffer.old }
    ensures stay { (page : PageName) (other : ℕ) → Has page other buffer.old.pool.frames
        → 0 < (frame_at buffer.new.pool.frames other).pins
        → Has page other buffer.new.pool.frames }
    ensures stands { (told : Option DiskImage) → StaysStanding buffer.old buffer.new told told }
{
    if let Some(spot) = kept {
        release(buffer, spot.at);
    }
}

// The first slot of a page that was never used, if the walk is for room and kept none before.
fn room_on(page: &Page, course: Course, kept: Option<Spot>) -> Option<u16>
    ensures { FindsRoom course kept page.now result }
{
    if course.for_room && kept.is_none() {
        free_slot(page)
    } else {
        None
    }
}

// The page behind a page on its chain, where as many more pages may be walked.
fn page_behind(page: &Page, left: u32) -> Option<u32>
    ensures { result ≡ onward left page.now }
{
    let next = next_page(page)?;
    if left > 0 && next < MOST_PAGES {
        Some(next)
    } else {
        None
    }
}
