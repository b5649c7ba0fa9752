//! The writes of pages that are under way, and the files. A page's write is kept here exactly while
//! its frame's flush has begun. A file that is known has at least so many pages on the disk.
ghost use Rattle.std.specs.Prelude.{ℕ, ◌≡◌, ◌≢◌, ◌↔◌, ◌==◌, ◌+◌, ◌<◌, ◌≤◌, Err, IfErr, IfNone, IfOk, IfSome, IsErrOf, IsSome, IsTrue, OnErr, OnOk, Some, false, option_copied, is_some, true};
ghost use Rattle.std.specs.FinMap as finite;
ghost use Rattle.std.specs.BTreeMap.{keys};
ghost use Rattle.std.specs.List.{list_any};
ghost use Rattle.std.specs.Ordering.{eq_by_cmp};
ghost use Rattle.std.specs.Set.{is_member};
ghost use Rattle.clone_model.specs.Keys.{row_cmp};
ghost use Rattle.clone_outside.specs.DiskCalls as calls;
ghost use Rattle.clone_outside.specs.Stops.{Notes};
ghost use Rattle.clone_outside.specs.Stops as change;
ghost use Rattle.clone_outside.specs.Disk.{DiskImage, ForTold, IsBeforeOrAfter, Opens, page_of};
ghost use Rattle.clone_image.specs.Replay.{first_lsn};
ghost use Rattle.std.specs.declared.option.Option.{Option};
ghost use Rattle.clone_pool.specs.Frames.{frame_at, name_of, IsInFlight};
ghost use Rattle.clone_pool.specs.Pool.{AreNotWaiting, IsHolder, IsNextToFlush};
ghost use Rattle.clone_pool.specs.declared.frame.PageName.{PageName};
ghost use Rattle.clone_ring.specs.Window.{end_of};
ghost use Rattle.clone_buffer.specs.Buffered.{Buffered};
ghost use Rattle.clone_buffer.specs.OnePage.{Copies};
ghost use Rattle.clone_buffer.specs.Flushing.{IsReached};
ghost use Rattle.clone_flush.specs.Calls.{Begins, Starts, RefusesBegin, Waits, Halves, Lands, Lengthens, IsUnderWay, after_begin, after_failure, checked, ends_short, floored, has_begun, lengthened, settled, needed_from, nearest_in, reaching, with_file, with_write, without_file, without_write};
ghost use Rattle.clone_flush.specs.Flights.{Flights, HasFiles, HasWriteOf, StandsFlown, write_of, writes_of};
ghost use Rattle.clone_model.specs.declared.line.TheConstants.{MOST_PAGES};
ghost use Rattle.clone_flush.specs.declared.flusher.PageWrite.{PageWrite};

use crate::FlushRefusal;
use crate::kept::KeptWrite;
use clone_base::{Counts, FIRST_LSN};
use clone_buffer::Buffer;
use clone_model::MOST_PAGES;
use clone_outside::{PageDisk, Refusal};
use clone_page::Page;
use std::alloc::{AllocError, Global};
use std::collections::BTreeMap;
use std::marker::Model;

/// A page on its way to the disk.
#[derive(Drop)]
pub struct PageWrite {
    /// The page as it was when its flush began.
    pub image: Page,
    /// Whether its first half is written.
    pub halved: bool,
}

/// The pages on their way to the disk, each as it was when its flush began, the last checkpoint,
/// and how long each file is: so many pages of it are there at least.
#[derive(Drop)]
pub struct Flusher {
    writes: BTreeMap<(u32, u32), KeptWrite>,
    // the memory of the last write that ended, for the next one
    spare: Option<KeptWrite>,
    alloc: Global,
    checkpoint: u64,
    files: Counts,
}

impl Model for Flusher {
    ghost use Rattle.clone_flush.specs.Flights.{Flights, flights_code, writes_of};

    ghost Value = { Flights };

    ghost coded = { flights_code };

    ghost view = { λ f. record {
      writes = writes_of f.writes.entries;
      checkpoint = f.checkpoint;
      files = f.files;
    } };
}

impl Flusher {
    /// No page is on its way, no file is known, and the checkpoint is where a log begins.
    pub fn new(alloc: Global) -> Flusher
        ensures writes { result.writes ≡ finite.empty }
        ensures checkpoint { result.checkpoint ≡ first_lsn }
        ensures files { result.files ≡ finite.empty }
    {
        Flusher {
            writes: BTreeMap::new(alloc),
            spare: None,
            alloc,
            checkpoint: FIRST_LSN,
            files: Counts::new(alloc),
        }
    }

    /// The files that are known, by their spaces in ascending order, each with so many pages as are
    /// known to be there.
    pub fn files(&self, alloc: Global) -> Result<Vec<(u32, u32)>, AllocError>
        ensures { IfOk result (λ files. files.items ≡ finite.entries self.now.files) }
    {
        self.files.list(alloc)
    }

    /// How many pages of a space's file are known to be there, if the file is known.
    pub fn file(&self, space: u32) -> Option<u32>
        ensures { result ≡ finite.get self.now.files space }
    {
        self.files.get(space)
    }

    /// A file of so many pages was made.
    pub fn file_made(&mut self, space: u32, pages: u32) -> Result<(), AllocError>
        ensures ok { OnOk result (self.new ≡ with_file space pages self.old) }
        ensures err { OnErr result (self.new ≡ self.old) }
    {
        self.files.insert(space, pages)?;
        Ok(())
    }

    /// The file of a space isn't there any more.
    pub fn file_gone(&mut self, space: u32)
        ensures { self.new ≡ without_file space self.old }
    {
        self.files.remove(space);
    }

    /// Whether a page of the space is on its way to the disk.
    pub fn write_under_way(&self, space: u32) -> bool
        ensures { IsTrue result ↔ HasWriteOf space self.now }
    {
        names_space(&self.writes, space)
    }

    /// The LSN of the last checkpoint.
    pub fn last_checkpoint(&self) -> u64
        ensures { result ≡ self.now.checkpoint }
    {
        self.checkpoint
    }

    /// The flush of a page begins: its image is what will be written, and the tracker of a clone
    /// that is in its file copy notes the page. A file that ends before the page is lengthened
    /// first. Where the disk fails at that, the flush has begun and failed: the page is dirty as
    /// before, and its write counts as open until a later flush of it lands.
    ///
    /// Refused where the page isn't dirty, and where a flush of it has begun. This takes memory for
    /// the image.
    pub fn begin<D: PageDisk>(
        &mut self,
        buffer: &mut Buffer,
        space: u32,
        number: u32,
        disk: &mut D,
    ) -> Result<(), FlushRefusal>
        ensures begins { Begins (record { space = space; number = number })
            (record { buffer = buffer.old; flights = self.old })
            (record { buffer = buffer.new; flights = self.new })
            (D.state disk.old).told (D.state disk.new).told result }
        ensures counts { calls.Counts (IsErrOf result FlushRefusal.DiskFault)
            (D.state disk.old) (D.state disk.new) }
        ensures stops { Notes (D.state disk.old).stops (D.state disk.new).stops
            (change.Extend space (number + 1)) }
        ensures files { ForTold (D.state disk.old).told (HasFiles self.old.files)
            → ForTold (D.state disk.new).told (HasFiles self.new.files) }
        ensures stands { (copies : Copies)
            → StandsFlown buffer.old self.old copies (D.state disk.old).told
            → ForTold (D.state disk.old).told (HasFiles self.old.files)
            → IsSome (finite.get self.old.files space) → number < MOST_PAGES
            → StandsFlown buffer.new self.new (after_begin
            (record { space = space; number = number }) (has_begun result) copies)
            (D.state disk.new).told }
        ensures unwritten { result ≡ Err FlushRefusal.DiskFault → (copies : Copies)
            → StandsFlown buffer.old self.old copies (D.state disk.old).told
            → StandsFlown buffer.new self.new copies (D.state disk.new).told }
    {
        self.start(buffer, space, number, disk)?;
        self.reach(space, number);
        Ok(())
    }

    /// The flush of a page begins as in `begin`, but that its file is known to be no longer than
    /// before: `reach` makes it so.
    pub fn start<D: PageDisk>(
        &mut self,
        buffer: &mut Buffer,
        space: u32,
        number: u32,
        disk: &mut D,
    ) -> Result<(), FlushRefusal>
        ensures starts { Starts (record { space = space; number = number })
            (record { buffer = buffer.old; flights = self.old })
            (record { buffer = buffer.new; flights = self.new })
            (D.state disk.old).told (D.state disk.new).told result }
        ensures counts { calls.Counts (IsErrOf result FlushRefusal.DiskFault)
            (D.state disk.old) (D.state disk.new) }
        ensures stops { Notes (D.state disk.old).stops (D.state disk.new).stops
            (change.Extend space (number + 1)) }
        ensures files { ForTold (D.state disk.old).told (HasFiles self.old.files)
            → ForTold (D.state disk.new).told (HasFiles self.new.files) }
        ensures stands { (copies : Copies)
            → StandsFlown buffer.old self.old copies (D.state disk.old).told
            → ForTold (D.state disk.old).told (HasFiles self.old.files)
            → IsSome (finite.get self.old.files space) → number < MOST_PAGES
            → StandsFlown buffer.new self.new (after_begin
            (record { space = space; number = number }) (has_begun result) copies)
            (D.state disk.new).told }
        ensures unwritten { result ≡ Err FlushRefusal.DiskFault → (copies : Copies)
            → StandsFlown buffer.old self.old copies (D.state disk.old).told
            → StandsFlown buffer.new self.new copies (D.state disk.new).told }
    {
        let at = waiting(buffer, space, number)?;
        buffer.laws();
        match self.prepare(space, number, buffer.frame(at), disk) {
            Ok(()) => {
                buffer.begin_flush(at);
                buffer.laws();
                Ok(())
            }
            Err(Refusal::Fault) => {
                buffer.begin_flush(at);
                buffer.laws();
                buffer.fail_flush(at);
                buffer.laws();
                Err(FlushRefusal::DiskFault)
            }
            Err(Refusal::NoMemory) => Err(FlushRefusal::NoMemory),
        }
    }

    /// The file of a page is known to be long enough for it.
    pub fn reach(&mut self, space: u32, number: u32)
        ensures reached { self.new ≡ lengthened
            (ends_short (record { space = space; number = number }) self.old)
            (record { space = space; number = number }) self.old }
        ensures files { (m : DiskImage) → HasFiles self.old.files m
            → IsSome (page_of m space number) → HasFiles self.new.files m }
        ensures stands { (buffer : Buffered) (copies : Copies) (told : Option DiskImage)
            → StandsFlown buffer self.old copies told → StandsFlown buffer self.new copies told }
    {
        if self.ends_short(space, number) {
            self.files.raise(space, number + 1);
        }
    }

    // The write of a page as it is in its frame is under way, and its file is long enough for it.
    // After a refusal both are as before.
    fn prepare<D: PageDisk>(
        &mut self,
        space: u32,
        number: u32,
        frame: &Page,
        disk: &mut D,
    ) -> Result<(), Refusal>
        ensures ok { OnOk result (self.new
            ≡ with_write (record { space = space; number = number })
            (record { image = frame.now; halved = false }) self.old) }
        ensures disk { OnOk result (Lengthens
            (ends_short (record { space = space; number = number }) self.old)
            (record { space = space; number = number })
            (D.state disk.old).told (D.state disk.new).told) }
        ensures err { OnErr result (self.new ≡ self.old) }
        ensures short { IsErrOf result Refusal.Fault
            → ends_short (record { space = space; number = number }) self.old ≡ true }
        ensures fault { IsErrOf result Refusal.Fault
            → IsBeforeOrAfter (D.state disk.old).told (D.state disk.new).told
            (reaching (record { space = space; number = number })) }
        ensures memory { IsErrOf result Refusal.NoMemory
            → (D.state disk.new).told ≡ (D.state disk.old).told }
        ensures counts { calls.Counts (IsErrOf result Refusal.Fault)
            (D.state disk.old) (D.state disk.new) }
        ensures stops { Notes (D.state disk.old).stops (D.state disk.new).stops
            (change.Extend space (number + 1)) }
    {
        let before = self.keep(space, number, frame)?;
        match self.lengthen(space, number, disk) {
            Ok(()) => Ok(()),
            Err(refusal) => {
                self.put_back(space, number, before);
                Err(refusal)
            }
        }
    }

    // The write of a page as it is in its frame is under way. What was in its place is given back.
    fn keep(
        &mut self,
        space: u32,
        number: u32,
        frame: &Page,
    ) -> Result<Option<KeptWrite>, AllocError>
        ensures ok { IfOk result (λ before.
            (before ≡ write_of self.old (record { space = space; number = number }))
            × (self.new ≡ with_write (record { space = space; number = number })
            (record { image = frame.now; halved = false }) self.old)) }
        ensures err { OnErr result (self.new ≡ self.old) }
    {
        let write = self.copied(frame)?;
        let before = self.writes.insert((space, number), write)?;
        Ok(before)
    }

    // The write of a page as it is, in the memory of one that has ended, if there is one.
    fn copied(&mut self, frame: &Page) -> Result<KeptWrite, AllocError>
        ensures ok { IfOk result (λ w. w ≡ record { image = frame.now; halved = false }) }
        ensures same { self.new ≡ self.old }
    {
        match self.spare.take() {
            Some(mut write) => {
                write.refill(frame);
                Ok(write)
            }
            None => KeptWrite::new(self.alloc, frame),
        }
    }

    // The write of a page is again what it was before another took its place.
    fn put_back(&mut self, space: u32, number: u32, before: Option<KeptWrite>)
        ensures { (w : PageWrite) (f : Flights)
            → before ≡ write_of f (record { space = space; number = number })
            → self.old ≡ with_write (record { space = space; number = number }) w f
            → self.new ≡ f }
    {
        match before {
            None => self.forget(space, number),
            Some(write) => replace_in(&mut self.writes, space, number, write),
        }
    }

    // The file of a page that ends before it gets as long as that on the disk.
    fn lengthen<D: PageDisk>(&self, space: u32, number: u32, disk: &mut D) -> Result<(), Refusal>
        ensures disk { OnOk result (Lengthens
            (ends_short (record { space = space; number = number }) self.now)
            (record { space = space; number = number })
            (D.state disk.old).told (D.state disk.new).told) }
        ensures short { OnErr result
            (ends_short (record { space = space; number = number }) self.now ≡ true) }
        ensures fault { IsErrOf result Refusal.Fault
            → IsBeforeOrAfter (D.state disk.old).told (D.state disk.new).told
            (reaching (record { space = space; number = number })) }
        ensures memory { IsErrOf result Refusal.NoMemory
            → (D.state disk.new).told ≡ (D.state disk.old).told }
        ensures counts { calls.Counts (IsErrOf result Refusal.Fault)
            (D.state disk.old) (D.state disk.new) }
        ensures stops { Notes (D.state disk.old).stops (D.state disk.new).stops
            (change.Extend space (number + 1)) }
    {
        if !self.ends_short(space, number) {
            return Ok(());
        }
        disk.extend(space, number + 1)?;
        Ok(())
    }

    // Whether the file of a page ends before it, and may get longer.
    fn ends_short(&self, space: u32, number: u32) -> bool
        ensures { result ≡ ends_short (record { space = space; number = number }) self.now }
    {
        match self.files.get(space) {
            Some(pages) => pages <= number && number < MOST_PAGES,
            None => false,
        }
    }

    // The write of a page is under way no more.
    fn forget(&mut self, space: u32, number: u32)
        ensures { self.new ≡ without_write (record { space = space; number = number }) self.old }
    {
        let ended = self.writes.remove(&(space, number));
        self.spare = ended.or(self.spare.take());
    }

    // The write of a page that is under way, if there is one.
    fn write_at(&self, space: u32, number: u32) -> Option<&KeptWrite>
        ensures { option_copied result
            ≡ write_of self.now (record { space = space; number = number }) }
    {
        self.writes.get(&(space, number))
    }

    // The first half of a page is written.
    fn halve(&mut self, space: u32, number: u32)
        ensures { (w : PageWrite)
            → write_of self.old (record { space = space; number = number }) ≡ Some w
            → self.new ≡ with_write (record { space = space; number = number })
            (record w { halved = true }) self.old }
    {
        halve_in(&mut self.writes, space, number);
    }

    // The frame of a page whose flush is under way, with its first half written or not.
    fn under_way(
        &self,
        buffer: &Buffer,
        space: u32,
        number: u32,
        halved: bool,
    ) -> Result<u32, FlushRefusal>
        ensures ok { IfOk result (λ at. (w : PageWrite) × IsUnderWay
            (record { space = space; number = number }) halved
            (record { buffer = buffer.now; flights = self.now }) w at) }
        ensures refused { IfErr result (λ refusal. (refusal ≡ FlushRefusal.NoFlush)
            × ((w : PageWrite) (at : ℕ) → IsUnderWay (record { space = space; number = number })
            halved (record { buffer = buffer.now; flights = self.now }) w at → ⊥)) }
    {
        match self.write_at(space, number) {
            Some(write) if write.is_halved() == halved => {}
            _ => return Err(FlushRefusal::NoFlush),
        }
        match buffer.find(space, number) {
            Some(at) if buffer.state(at).is_in_flight() => Ok(at),
            _ => Err(FlushRefusal::NoFlush),
        }
    }

    // The disk failed to write a half of a page whose flush is under way.
    fn fail(&mut self, buffer: &mut Buffer, space: u32, number: u32, frame: u32)
        requires holder { IsHolder (record { space = space; number = number })
            buffer.old.pool.frames frame }
        requires flight { IsInFlight (frame_at buffer.old.pool.frames frame) }
        requires write { IsSome
            (write_of self.old (record { space = space; number = number })) }
        ensures failed { record { buffer = buffer.new; flights = self.new } ≡ after_failure
            (record { space = space; number = number }) frame
            (record { buffer = buffer.old; flights = self.old }) }
        ensures stands { (copies : Copies) (before after : Option DiskImage)
            → Opens space number before after → StandsFlown buffer.old self.old copies before
            → StandsFlown buffer.new self.new copies after }
    {
        buffer.laws();
        self.forget(space, number);
        buffer.fail_flush(frame);
        buffer.laws();
    }

    /// Writes the first half of an image. Refused where no flush of the page is under way, and
    /// where its first half is written. Where the disk fails, the flush has failed: the page is
    /// dirty as before, and its write open until a later flush of it lands.
    pub fn half<D: PageDisk>(
        &mut self,
        buffer: &mut Buffer,
        space: u32,
        number: u32,
        disk: &mut D,
    ) -> Result<(), FlushRefusal>
        ensures halves { Halves (record { space = space; number = number })
            (record { buffer = buffer.old; flights = self.old })
            (record { buffer = buffer.new; flights = self.new })
            (D.state disk.old).told (D.state disk.new).told result }
        ensures counts { calls.Counts (IsErrOf result FlushRefusal.DiskFault)
            (D.state disk.old) (D.state disk.new) }
        ensures stops { Notes (D.state disk.old).stops (D.state disk.new).stops
            (change.WriteHalf space number) }
        ensures stands { (copies : Copies)
            → StandsFlown buffer.old self.old copies (D.state disk.old).told
            → StandsFlown buffer.new self.new copies (D.state disk.new).told }
    {
        buffer.laws();
        let at = self.under_way(buffer, space, number, false)?;
        let Some(write) = self.write_at(space, number) else {
            unreachable!();
        };
        match disk.write_half(space, number, write.image().bytes()) {
            Ok(()) => {
                self.halve(space, number);
                Ok(())
            }
            Err(Refusal::Fault) => {
                self.fail(buffer, space, number, at);
                Err(FlushRefusal::DiskFault)
            }
            Err(Refusal::NoMemory) => Err(FlushRefusal::NoMemory),
        }
    }

    /// Writes the second half of an image. The disk has the page then as it was when the flush
    /// began, and the page is clean, or dirty from its first change after that. Refused where no
    /// flush of the page has its first half written. Where the disk fails, the flush has failed, as
    /// with the first half.
    pub fn land<D: PageDisk>(
        &mut self,
        buffer: &mut Buffer,
        space: u32,
        number: u32,
        disk: &mut D,
    ) -> Result<(), FlushRefusal>
        ensures lands { Lands (record { space = space; number = number })
            (record { buffer = buffer.old; flights = self.old })
            (record { buffer = buffer.new; flights = self.new })
            (D.state disk.old).told (D.state disk.new).told result }
        ensures image { OnOk result ((copies : Copies)
            → StandsFlown buffer.old self.old copies (D.state disk.old).told
            → ForTold (D.state disk.new).told (λ m. (w : PageWrite)
            → write_of self.old (record { space = space; number = number }) ≡ Some w
            → page_of m space number ≡ Some (record { bytes = w.image; writing = false }))) }
        ensures counts { calls.Counts (IsErrOf result FlushRefusal.DiskFault)
            (D.state disk.old) (D.state disk.new) }
        ensures stops { Notes (D.state disk.old).stops (D.state disk.new).stops
            (change.WriteRest space number) }
        ensures stands { (copies : Copies)
            → StandsFlown buffer.old self.old copies (D.state disk.old).told
            → StandsFlown buffer.new self.new copies (D.state disk.new).told }
    {
        buffer.laws();
        let at = self.under_way(buffer, space, number, true)?;
        let Some(write) = self.write_at(space, number) else {
            unreachable!();
        };
        match disk.write_rest(space, number, write.image().bytes()) {
            Ok(()) => {
                self.forget(space, number);
                buffer.land_flush(at);
                buffer.laws();
                Ok(())
            }
            Err(Refusal::Fault) => {
                self.fail(buffer, space, number, at);
                Err(FlushRefusal::DiskFault)
            }
            Err(Refusal::NoMemory) => Err(FlushRefusal::NoMemory),
        }
    }

    /// The dirty page to be flushed next, by its space and its number, or none where no dirty page
    /// waits for that. Of those whose flush isn't under way it is the one with the least oldest
    /// change, and of several with the same the first by space and page.
    pub fn oldest_dirty(&self, buffer: &Buffer) -> Option<(u32, u32)>
        ensures none { IfNone result (AreNotWaiting buffer.now.pool.frames) }
        ensures some { IfSome result (λ page. (at : ℕ) × IsNextToFlush buffer.now.pool.frames at
            × (name_of (frame_at buffer.now.pool.frames at)
            ≡ Some (record { space = page.0; number = page.1 }))) }
    {
        let at = buffer.next_to_flush()?;
        let name = buffer.state(at).name()?;
        let _ = &self.writes;
        Some((name.space, name.number))
    }

    /// A checkpoint: the LSN at which the oldest change begins that isn't on the disk, or the log's
    /// end where no page is dirty. The log below it goes, but for what is kept from an LSN on.
    pub fn checkpoint(&mut self, buffer: &mut Buffer, kept_from: Option<u64>) -> u64
        ensures reached { IsReached buffer.old result }
        ensures checked { record { buffer = buffer.new; flights = self.new }
            ≡ checked result kept_from (record { buffer = buffer.old; flights = self.old }) }
        ensures floor { (copies : Copies) (told : Option DiskImage)
            → StandsFlown buffer.old self.old copies told
            → IfSome kept_from (λ kept. buffer.old.ring.floor ≤ kept)
            → ForTold told (λ m. buffer.new.ring.floor ≡ needed_from result kept_from) }
        ensures stands { (copies : Copies) (told : Option DiskImage)
            → StandsFlown buffer.old self.old copies told
            → StandsFlown buffer.new self.new copies told }
    {
        buffer.laws();
        self.checkpoint = reached(buffer);
        self.settle_floor(buffer, kept_from);
        self.checkpoint
    }

    /// Lets the log below the last checkpoint go, but for what is kept from an LSN on.
    pub fn settle_floor(&self, buffer: &mut Buffer, kept_from: Option<u64>)
        ensures settled { buffer.new ≡ settled self.now.checkpoint kept_from buffer.old }
        ensures floor { (copies : Copies) (told : Option DiskImage)
            → StandsFlown buffer.old self.now copies told
            → IfSome kept_from (λ kept. buffer.old.ring.floor ≤ kept)
            → ForTold told
            (λ m. buffer.new.ring.floor ≡ needed_from self.now.checkpoint kept_from) }
        ensures stands { (copies : Copies) (told : Option DiskImage)
            → StandsFlown buffer.old self.now copies told
            → StandsFlown buffer.new self.now copies told }
    {
        buffer.laws();
        let_go(buffer, needed_from(self.checkpoint, kept_from));
    }

    /// Where redo of the pages on the disk starts: at the last checkpoint, or at the LSN nearest to
    /// it that the log has.
    pub fn start_within(&self, buffer: &Buffer) -> u64
        ensures nearest { result ≡ nearest_in buffer.now.ring self.now.checkpoint }
        ensures above { buffer.now.ring.floor ≤ result }
        ensures below { result ≤ end_of buffer.now.ring }
        ensures checkpoint { (copies : Copies) (told : Option DiskImage)
            → StandsFlown buffer.now self.now copies told
            → ForTold told (λ m. result ≡ self.now.checkpoint) }
    {
        buffer.laws();
        self.checkpoint.min(buffer.end()).max(buffer.floor())
    }
}

// Whether one of the writes is that of a page of the space.
fn names_space(writes: &BTreeMap<(u32, u32), KeptWrite>, space: u32) -> bool
    ensures any { result ≡ list_any (λ page. page.0 == space) (keys writes.now) }
    ensures there { (page : ℕ × ℕ) → is_some (finite.get (writes_of writes.now.entries) page)
        ≡ is_member (eq_by_cmp row_cmp) (keys writes.now) page }
{
    writes.keys().any(|page| page.0 == space)
}

// The first half of a page is written, where its write is under way.
fn halve_in(writes: &mut BTreeMap<(u32, u32), KeptWrite>, space: u32, number: u32)
    ensures { (w : PageWrite) → finite.get (writes_of writes.old.entries) (space, number) ≡ Some w
        → writes_of writes.new.entries ≡ finite.insert (writes_of writes.old.entries)
        (space, number) (record w { halved = true }) }
{
    if let Some(write) = writes.get_mut(&(space, number)) {
        write.halve();
    }
}

// Another write of a page takes the place of the one that is under way.
fn replace_in(
    writes: &mut BTreeMap<(u32, u32), KeptWrite>,
    space: u32,
    number: u32,
    write: KeptWrite,
)
    ensures { IsSome (finite.get (writes_of writes.old.entries) (space, number))
        → writes_of writes.new.entries
        ≡ finite.insert (writes_of writes.old.entries) (space, number) write }
{
    if let Some(old) = writes.get_mut(&(space, number)) {
        *old = write;
    }
}

// The LSN at which the oldest change begins that isn't on the disk, or the log's end.
fn reached(buffer: &Buffer) -> u64
    ensures { IsReached buffer.now result }
{
    buffer.laws();
    match buffer.oldest() {
        Some(oldest) => oldest,
        None => buffer.end(),
    }
}

// The log below an LSN goes, where that is above its floor and within it.
fn let_go(buffer: &mut Buffer, lsn: u64)
    ensures { buffer.new ≡ record buffer.old { ring = floored lsn buffer.old.ring } }
{
    if buffer.floor() < lsn && lsn <= buffer.end() {
        buffer.raise_floor(lsn);
    }
}

// The LSN from which on the log is needed, where it is also kept from another one on.
fn needed_from(checkpoint: u64, kept_from: Option<u64>) -> u64
    ensures { result ≡ needed_from checkpoint kept_from }
{
    match kept_from {
        Some(kept) => checkpoint.min(kept),
        None => checkpoint,
    }
}

// The frame of a dirty page that waits for its flush.
fn waiting(buffer: &Buffer, space: u32, number: u32) -> Result<u32, FlushRefusal>
    ensures ok { IfOk result
        (λ at. Waits (record { space = space; number = number }) buffer.now at) }
    ensures refused { IfErr result (λ refusal. (f : Flights) (told : Option DiskImage)
        → RefusesBegin refusal (record { space = space; number = number })
        (record { buffer = buffer.now; flights = f })
        (record { buffer = buffer.now; flights = f }) told told) }
    ensures disk { result ≢ Err FlushRefusal.DiskFault }
{
    let Some(at) = buffer.find(space, number) else {
        return Err(FlushRefusal::NotDirty);
    };
    let frame = buffer.state(at);
    if !frame.is_dirty() {
        return Err(FlushRefusal::NotDirty);
    }
    if frame.is_in_flight() {
        return Err(FlushRefusal::InFlight);
    }
    Ok(at)
}
