//! The pages that a call holds until it ends. The array has the number of the frame of each, in the
//! order in which they were held.
ghost use Rattle.std.specs.Prelude.{ℕ, ◌≡◌, ◌<◌, ◌≤◌, [], ◌∷◌, List, IfErr, IfOk, IsErrOf, IsSome, IsTrue, MatchOption, None, Ok, Some, length};
ghost use Rattle.std.specs.declared.option.Option.{Option};
ghost use Rattle.clone_outside.specs.Disk.{DiskImage};
ghost use Rattle.clone_outside.specs.DiskCalls.{Reads};
ghost use Rattle.clone_contents.specs.Contents.{contents_of};
ghost use Rattle.clone_image.specs.Image.{page_of};
ghost use Rattle.clone_buffer.specs.Buffered.{Buffered, image_of};
ghost use Rattle.clone_plain.specs.Donor.{Donor};
ghost use Rattle.clone_plain.specs.declared.refusal.Cause.TheVariants.{DiskFault};
ghost use Rattle.clone_plain.specs.declared.refusal.EngineRefusal.TheVariants.{Because};
ghost use Rattle.clone_trx.specs.Holding.{ArePinned, Call, HasCome, HoldsMore, IsRefused, released};
ghost use Rattle.clone_trx.specs.Kept.{AreLoose, Has, Keeps};
ghost use Rattle.clone_trx.specs.Sound.{HasChain, IsKept};
ghost use Rattle.clone_trx.specs.Ways.{StaysStanding, WalksAll, Way, chain_page, freshens, page_in, reads, walks};

use crate::hold::{hold, hold_new, release};
use crate::walk::{Course, Spot, walk};
use clone_buffer::Buffer;
use clone_outside::PageDisk;
use clone_plain::EngineRefusal;
use std::marker::Model;

/// The frames of the pages that a call holds, at most five. Contracts see their list, with the last
/// one first.
#[derive(Drop)]
pub struct Held {
    frames: [u32; 5],
    count: usize,
}

impl Model for Held {
    ghost use Rattle.std.specs.Prelude.{ℕ, ◌≤◌, List, reverse, take};

    ghost Value = { List ℕ };

    ghost view = { λ h. reverse (take h.count h.frames) };

    ghost invariant = { λ h. h.count ≤ 5 };
}

impl Held {
    /// No page.
    pub fn new() -> Held
        ensures { result ≡ [] }
    {
        Held {
            frames: [0; 5],
            count: 0,
        }
    }

    /// Walks along a chain, and holds the page that the walk comes to. Where it is refused no page
    /// is held.
    pub fn walk<D: PageDisk>(
        &mut self,
        buffer: &mut Buffer,
        disk: &mut D,
        course: Course,
    ) -> Result<Spot, EngineRefusal>
        requires none { self.old ≡ [] }
        requires table { 1 ≤ course.table }
        requires loose { AreLoose buffer.old.pool.frames }
        requires chain { IsTrue buffer.old.right
            → HasChain (contents_of (image_of buffer.old)) course.table course.first }
        ensures walked { IfOk result (λ spot. WalksAll course buffer.old buffer.new (Ok spot)) }
        ensures comes { IfOk result (λ spot. (call : Call) (rest : ℕ → Option ℕ → List ℕ → Way)
            → HasCome call [] (walks course rest) buffer.old
            → HasCome call self.new (rest spot.page spot.slot (page_in spot.at buffer.new))
            buffer.new) }
        ensures frames { IfOk result (λ spot. self.new ≡ spot.at ∷ []) }
        ensures has { IfOk result
            (λ spot. Has (chain_page course spot.page) spot.at buffer.new.pool.frames) }
        ensures refused { IfErr result (λ refusal. (call : Call)
            (rest : ℕ → Option ℕ → List ℕ → Way)
            → HasCome call [] (walks course rest) buffer.old
            → IsRefused call buffer.new refusal) }
        ensures reads { Reads (IsErrOf result (Because DiskFault))
            (D.state disk.old) (D.state disk.new) }
        ensures stands { StaysStanding buffer.old buffer.new
            (D.state disk.old).told (D.state disk.new).told }
    {
        let spot = walk(buffer, disk, course)?;
        self.push(spot.at);
        Ok(spot)
    }

    /// Holds a page more, and answers the number of its frame. Refused where there is no frame for
    /// it, and where the disk fails; then no page is held any more.
    pub fn hold<D: PageDisk>(
        &mut self,
        buffer: &mut Buffer,
        disk: &mut D,
        space: u32,
        number: u32,
    ) -> Result<u32, EngineRefusal>
        requires room { length self.old < 5 }
        requires pinned { ArePinned self.old buffer.old.pool.frames }
        requires there { IsTrue buffer.old.right
            → IsSome (page_of (image_of buffer.old) space number) }
        ensures comes { IfOk result (λ at. (call : Call) (rest : List ℕ → Way)
            → HasCome call self.old (reads (record { space = space; number = number }) rest)
            buffer.old
            → HasCome call self.new (rest (page_in at buffer.new)) buffer.new) }
        ensures frames { IfOk result (λ at. self.new ≡ at ∷ self.old) }
        ensures holds { IfOk result (λ at. HoldsMore (record { space = space; number = number }) at
            buffer.old buffer.new) }
        ensures shown { IfOk result (λ at. IsTrue buffer.new.right
            → page_of (image_of buffer.new) space number ≡ Some (page_in at buffer.new)) }
        ensures refused { IfErr result (λ refusal. (call : Call) (rest : List ℕ → Way)
            → HasCome call self.old (reads (record { space = space; number = number }) rest)
            buffer.old
            → IsRefused call buffer.new refusal) }
        ensures reads { Reads (IsErrOf result (Because DiskFault))
            (D.state disk.old) (D.state disk.new) }
        ensures stands { StaysStanding buffer.old buffer.new
            (D.state disk.old).told (D.state disk.new).told }
    {
        match hold(buffer, disk, space, number) {
            Ok(at) => {
                self.push(at);
                Ok(at)
            }
            Err(refusal) => {
                self.release(buffer);
                Err(refusal)
            }
        }
    }

    /// Holds a new page more, and answers the number of its frame. Refused where there is no frame
    /// for it; then no page is held any more.
    pub fn hold_new(
        &mut self,
        buffer: &mut Buffer,
        space: u32,
        number: u32,
    ) -> Result<u32, EngineRefusal>
        requires room { length self.old < 5 }
        requires pinned { ArePinned self.old buffer.old.pool.frames }
        requires absent { IsTrue buffer.old.right
            → page_of (image_of buffer.old) space number ≡ None }
        ensures comes { IfOk result (λ at. (call : Call) (rest : Way)
            → HasCome call self.old (freshens (record { space = space; number = number }) rest)
            buffer.old
            → HasCome call self.new rest buffer.new) }
        ensures frames { IfOk result (λ at. self.new ≡ at ∷ self.old) }
        ensures holds { IfOk result (λ at. HoldsMore (record { space = space; number = number }) at
            buffer.old buffer.new) }
        ensures refused { IfErr result (λ refusal. (call : Call) (rest : Way)
            → HasCome call self.old (freshens (record { space = space; number = number }) rest)
            buffer.old
            → IsRefused call buffer.new refusal) }
        ensures other { IfErr result (λ refusal. refusal ≡ Because DiskFault → ⊥) }
        ensures stands { (told : Option DiskImage) → StaysStanding buffer.old buffer.new told told }
    {
        match hold_new(buffer, space, number) {
            Ok(at) => {
                self.push(at);
                Ok(at)
            }
            Err(refusal) => {
                self.release(buffer);
                Err(refusal)
            }
        }
    }

    /// Lets all pages go, the last one first.
    pub fn release(&mut self, buffer: &mut Buffer)
        requires { ArePinned self.old buffer.old.pool.frames }
        ensures is { buffer.new ≡ released self.old buffer.old }
        ensures keeps { (d : Donor) → (IsTrue buffer.old.right → IsKept d (image_of buffer.old))
            → Keeps d buffer.new }
        ensures stands { (told : Option DiskImage) → StaysStanding buffer.old buffer.new told told }
    {
        while let Some(at) = self.pop() {
            release(buffer, at);
        }
    }

    // The page in this frame is held, too.
    fn push(&mut self, at: u32)
        requires { length self.old < 5 }
        ensures { self.new ≡ at ∷ self.old }
    {
        self.frames[self.count] = at;
        self.count += 1;
    }

    // The frame of the last page, which is held no more, if there is one.
    fn pop(&mut self) -> Option<u32>
        ensures { MatchOption result ((self.old ≡ []) × (self.new ≡ []))
            (λ at. self.old ≡ at ∷ self.new) }
    {
        if self.count == 0 {
            return None;
        }
        self.count -= 1;
        Some(self.frames[self.count])
    }
}
