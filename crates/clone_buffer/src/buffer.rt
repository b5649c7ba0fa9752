//! The pool, the ring and the log that they come from, which proofs alone read. The ring holds the
//! bytes of the log from the ring's floor on, and ends where the log ends, below LSN 2^39. As long
//! as each page that was read was right, each frame that holds a page has the page that the log
//! makes.
ghost use Rattle.std.specs.Prelude.{◌≡◌, ◌≢◌, ◌<◌, ◌≤◌, ◌+◌, ◌-◌, ◌^◌, ◌↔◌, ℕ, true, [], None, Some, IfOk, IfNone, IfSome, IsOk, OnOk, OnErr, IfErr, IsErr, IsErrOf, IsSome, IsTrue, length, option_copied, take, drop, replicate};
ghost use Rattle.std.specs.Option.{ForSome};
ghost use Rattle.clone_outside.specs.DiskCalls.{Reads};
ghost use Rattle.clone_buffer.specs.Writing.{after_records, changed_at, named_frame};
ghost use Rattle.clone_buffer.specs.Dropping.{AreUnpinned, given_up};
ghost use Rattle.std.specs.List.{AllByRecursion};
ghost use Rattle.clone_buffer.specs.Flushing.{BeginKeeps, OpenKeeps, LandKeeps, RestLands, FailKeeps, FaultKeeps, LengthenKeeps, CheckpointKeeps, with_change};
ghost use Rattle.clone_buffer.specs.Keeping.{CopyKept, CopyKeeps};
ghost use Rattle.clone_buffer.specs.Reading.{FileReadAllowed};
ghost use Rattle.clone_mtr.specs.Records.{IsRecord};
ghost use Rattle.clone_mtr.specs.Spelling.{spelling, Spells, longest, log_of};
ghost use Rattle.clone_ring.specs.Window.{empty, end_of, free_in, raised};
ghost use Rattle.clone_image.specs.Image.{page_of, EditsPages};
ghost use Rattle.clone_image.specs.Replay.{Replays, IsSpelled};
ghost use Rattle.clone_pool.specs.Frames.{no_frame, frame_at, holder, loader, HoldsPage, IsInFlight, is_waiting, page_changed, aside_for, pinned, unpinned, begun, landed, failed};
ghost use Rattle.clone_pool.specs.declared.frame.Content.TheVariants.{Held};
ghost use Rattle.clone_pool.specs.declared.frame.PageName.{PageName};
ghost use Rattle.clone_pool.specs.Pool.{IsPool, Fetches, Freshens, IsHolder, KeepsOthers, KeepsInUse, AreClean, IsOldest, HasPinRoom, HasVictim, IsVictim, with_frame, discarded_at, AreNotWaiting, AreOpenPages, IsNextToFlush};

use crate::shadow::{Note, Shadow};
use clone_base::PAGE_SIZE;
use clone_mtr::{LONGEST_MTR, Record, encode_into, spelling_length};
use clone_outside::{PageDisk, Refusal};
use clone_page::Page;
use clone_pool::{FetchRefusal, Frame, PageName, Pool};
use clone_ring::{LogFull, Ring};
use std::alloc::{AllocError, Global};
use std::marker::Model;

/// The pages of a donor in frames, and the redo log from its floor on. After it is made no call
/// but `open_pages` takes memory.
///
/// Contracts speak of the whole log and of the pages that it makes. `right` says that each page
/// that was read so far was the one that the log made by then: as long as it holds, each frame has
/// the page of the log. Over a disk that tells what it holds, and agrees with the log, it stays
/// true: that is `Stands`.
#[derive(Drop)]
pub struct Buffer {
    pool: Pool,
    ring: Ring,
    shadow: Shadow,
}

impl Model for Buffer {
    ghost use Rattle.clone_buffer.specs.Buffered.{Buffered, IsBuffer};

    ghost Value = { Buffered };

    ghost view = { λ b. record {
      log = b.shadow.state.log;
      right = b.shadow.state.right;
      ring = b.ring;
      pool = b.pool;
    } };

    ghost invariant = { λ b. IsBuffer (record {
      log = b.shadow.state.log;
      right = b.shadow.state.right;
      ring = b.ring;
      pool = b.pool;
    }) };
}

impl Buffer {
    ghost use Rattle.std.specs.declared.option.Option.{Option};
    ghost use Rattle.clone_outside.specs.Disk.{DiskImage, ForTold, blank};
    ghost use Rattle.clone_buffer.specs.Writing.{HasFrame, IsOnPage, Creates, HasMade, Lengthens, Writes, with_made, written};
    ghost use Rattle.clone_buffer.specs.Dropping.{DropsSpace, WritesWithout};
    ghost use Rattle.clone_buffer.specs.Buffered.{image_of, IsBuffer, Shows};
    ghost use Rattle.clone_buffer.specs.OnePage.{Beside, NoFilesOf, NoFlightsOf, at_rest, bytes_in, frame_of};
    ghost use Rattle.clone_buffer.specs.Keeping.{IsKept, Stands, DiskIsFrames};
    ghost use Rattle.clone_buffer.specs.Reading.{OthersAreClosed, ReadsLatest};

    /// So many frames without pages, and an empty log in a ring of so many bytes.
    pub fn new(alloc: Global, frames: u32, ring: u64) -> Result<Buffer, AllocError>
        ensures log { IfOk result (λ b. b.log ≡ []) }
        ensures right { IfOk result (λ b. IsTrue b.right) }
        ensures ring { IfOk result (λ b. b.ring ≡ empty ring) }
        ensures pool { IfOk result
            (λ b. b.pool ≡ record {
              frames = replicate frames no_frame;
              uses = 0;
              missed = None;
            }) }
        ensures stands { IfOk result (λ b. Stands b at_rest (Some blank)) }
    {
        Ok(Buffer {
            pool: Pool::new(alloc, frames)?,
            ring: Ring::new(alloc, ring)?,
            shadow: Shadow::new(),
        })
    }

    /// Brings a page into a frame, and answers the frame's number. It counts as a use of the frame.
    ///
    /// The error is `PoolFull` exactly where the page has no frame, none is set aside for it, and
    /// each frame is pinned, dirty or set aside, and nothing has changed then; or `DiskFault`, and
    /// the frame into which the page was to be read has no page then.
    pub fn fetch<D: PageDisk>(
        &mut self,
        disk: &mut D,
        space: u32,
        number: u32,
    ) -> Result<u32, FetchRefusal>
        requires there { IsTrue self.old.right → IsSome (page_of (image_of self.old) space number) }
        ensures answer { Fetches
            (record { space = space; number = number }) self.old.pool self.new.pool result }
        ensures held { IfOk result
            (IsHolder (record { space = space; number = number }) self.new.pool.frames) }
        ensures others { IfOk result
            (λ at. KeepsOthers at self.old.pool.frames self.new.pool.frames) }
        ensures kept { KeepsInUse self.old.pool.frames self.new.pool.frames }
        ensures log { self.new.log ≡ self.old.log }
        ensures ring { self.new.ring ≡ self.old.ring }
        ensures right { IfOk result
            (λ at. IsTrue self.new.right ↔ (IsTrue self.old.right
            × (page_of (image_of self.old) space number
            ≡ Some (frame_at self.new.pool.frames at).page))) }
        ensures refused { OnErr result (self.new.right ≡ self.old.right) }
        ensures reads { Reads (IsErrOf result FetchRefusal.DiskFault)
            (D.state disk.old) (D.state disk.new) }
        ensures stands { (beside : Beside) → Stands self.old beside (D.state disk.old).told
            → Stands self.new beside (D.state disk.new).told }
    {
        self.pool.laws();
        let fetched = self.pool.fetch(disk, space, number);
        self.pool.laws();
        let at = fetched?;
        self.shadow = self
            .shadow
            .then(&Note::Read(space, number, self.pool.frame(at)));
        Ok(at)
    }

    /// Takes a frame for a new page of zero bytes, which isn't there yet, and answers the frame's
    /// number. The page is pinned, and it counts as a use of the frame. A new page that has a frame
    /// is pinned there once more.
    ///
    /// The error is `PoolFull` exactly where the page has no frame, none is set aside for it, and
    /// each frame is pinned, dirty or set aside, and nothing has changed then. Until a
    /// mini-transaction makes the page, it goes with its last pin.
    pub fn fresh(&mut self, space: u32, number: u32) -> Result<u32, FetchRefusal>
        requires room { ForSome
            (holder self.old.pool.frames (record { space = space; number = number }))
            (λ at. HasPinRoom (frame_at self.old.pool.frames at)) }
        requires absent { IsTrue self.old.right → page_of (image_of self.old) space number ≡ None }
        ensures answer { Freshens
            (record { space = space; number = number }) self.old.pool self.new.pool result }
        ensures held { IfOk result
            (IsHolder (record { space = space; number = number }) self.new.pool.frames) }
        ensures same { self.new ≡ record self.old { pool = self.new.pool } }
        ensures stands { (beside : Beside) (told : Option DiskImage)
            → Stands self.old beside told → Stands self.new beside told }
    {
        self.pool.laws();
        let taken = self.pool.fresh(space, number);
        self.pool.laws();
        taken
    }

    /// The page that was asked of the disk when a fetch last ended with `DiskFault`, if one did.
    pub fn missed(&self) -> Option<PageName>
        ensures { result ≡ self.now.pool.missed }
    {
        self.pool.missed()
    }

    /// Sets a frame aside for a page that is to be loaded, and answers the frame's number. It is
    /// the one that makes way, and has no page until the page is fetched. Meanwhile it doesn't make
    /// way.
    pub fn set_aside(&mut self, space: u32, number: u32) -> u32
        requires there { IsTrue self.old.right → IsSome (page_of (image_of self.old) space number) }
        requires room { HasVictim self.old.pool.frames }
        requires absent { holder self.old.pool.frames (record { space = space; number = number })
            ≡ None }
        requires unloaded { loader self.old.pool.frames (record { space = space; number = number })
            ≡ None }
        ensures victim { IsVictim self.old.pool.frames result }
        ensures aside { self.new ≡ record self.old {
          pool = with_frame result (aside_for (record { space = space; number = number }))
              self.old.pool;
        } }
        ensures stands { (beside : Beside) (told : Option DiskImage)
            → Stands self.old beside told → Stands self.new beside told }
    {
        self.pool.laws();
        let at = self.pool.set_aside(PageName { space, number });
        self.pool.laws();
        at
    }

    /// The frame that is set aside for a page, if there is one, is so no more.
    pub fn give_up_loading(&mut self, space: u32, number: u32)
        ensures given_up { self.new ≡ record self.old {
          pool = discarded_at
              (loader self.old.pool.frames (record { space = space; number = number }))
              self.old.pool;
        } }
        ensures stands { (beside : Beside) (told : Option DiskImage)
            → Stands self.old beside told → Stands self.new beside told }
    {
        self.pool.laws();
        self.pool.give_up_loading(PageName { space, number });
        self.pool.laws();
    }

    /// The number of the frame that is set aside for a page, if one is.
    pub fn loader(&self, space: u32, number: u32) -> Option<u32>
        ensures { result ≡ loader self.now.pool.frames
            (record { space = space; number = number }) }
    {
        self.pool.loader(PageName { space, number })
    }

    /// The number of the frame that holds a page, if one does.
    pub fn find(&self, space: u32, number: u32) -> Option<u32>
        ensures holder { result
            ≡ holder self.now.pool.frames (record { space = space; number = number }) }
        ensures held { IfSome result
            (IsHolder (record { space = space; number = number }) self.now.pool.frames) }
    {
        self.pool.find(PageName { space, number })
    }

    /// The page in a frame.
    pub fn frame(&self, at: u32) -> &Page
        requires { HoldsPage (frame_at self.now.pool.frames at) }
        ensures bytes { result.now ≡ (frame_at self.now.pool.frames at).page }
        ensures shown { (name : PageName) → (frame_at self.now.pool.frames at).content ≡ Held name
            → IsTrue self.now.right
            → page_of (image_of self.now) name.space name.number ≡ Some result.now }
    {
        self.pool.frame(at)
    }

    /// A page as its frame has it, if it has one. A new page that no change made doesn't count. It
    /// counts as no use of the frame.
    pub fn page(&self, space: u32, number: u32) -> Option<&Page>
        ensures page { option_copied result
            ≡ bytes_in (frame_of self.now.pool.frames space number) }
        ensures shown { IfSome result (λ page. IsTrue self.now.right
            → page_of (image_of self.now) space number ≡ Some page.now) }
    {
        let at = self.find(space, number)?;
        let frame = self.pool.state(at);
        if frame.is_new() {
            return None;
        }
        Some(&frame.page)
    }

    /// Reads a page as it is now: as its frame has it, if it has one, and else as the disk has it.
    /// The page takes no frame, and it counts as no use of one. The error is `Fault`.
    pub fn read_latest<D: PageDisk>(
        &self,
        disk: &mut D,
        space: u32,
        number: u32,
        into: &mut [u8; PAGE_SIZE],
    ) -> Result<(), Refusal>
        ensures frame { IfSome (bytes_in (frame_of self.now.pool.frames space number))
            (λ bytes. IsOk result × (into.new ≡ bytes)) }
        ensures latest { OnOk result
            (ReadsLatest self.now (D.state disk.old).told space number into.new) }
        ensures reads { Reads (IsErr result) (D.state disk.old) (D.state disk.new) }
        ensures memory { result ≢ Err Refusal.NoMemory }
    {
        if let Some(page) = self.page(space, number) {
            *into = *page.bytes();
            return Ok(());
        }
        self.laws();
        disk.read_page(space, number, into)
    }

    /// Keeps the page in its frame until it is unpinned as often.
    pub fn pin(&mut self, at: u32)
        requires holds { HoldsPage (frame_at self.old.pool.frames at) }
        requires room { HasPinRoom (frame_at self.old.pool.frames at) }
        ensures pinned { self.new ≡ record self.old { pool = with_frame at pinned self.old.pool } }
        ensures stands { (beside : Beside) (told : Option DiskImage)
            → Stands self.old beside told → Stands self.new beside told }
    {
        self.pool.laws();
        self.pool.pin(at);
        self.pool.laws();
    }

    /// Takes a pin away. A new page that no change made goes with its last pin.
    pub fn unpin(&mut self, at: u32)
        requires holds { HoldsPage (frame_at self.old.pool.frames at) }
        requires pinned { 0 < (frame_at self.old.pool.frames at).pins }
        ensures unpinned { self.new
            ≡ record self.old { pool = with_frame at unpinned self.old.pool } }
        ensures stands { (beside : Beside) (told : Option DiskImage)
            → Stands self.old beside told → Stands self.new beside told }
    {
        self.pool.laws();
        self.pool.unpin(at);
        self.pool.laws();
    }

    /// Writes a mini-transaction to the log, does to the pages in their frames what its records
    /// say, and answers the log's end. Each page that a record names has a frame, and is there.
    ///
    /// It is refused exactly where its spelling has more bytes than are free, and nothing has
    /// changed then.
    pub fn write(&mut self, records: &[Record]) -> Result<u64, LogFull>
        requires some { 1 ≤ length records.now }
        requires short { length (spelling records.now) ≤ longest }
        requires edits { AllByRecursion EditsPages records.now }
        requires framed { AllByRecursion (HasFrame self.old.pool.frames) records.now }
        requires there { IsTrue self.old.right
            → AllByRecursion (IsOnPage (image_of self.old)) records.now }
        ensures written { Writes records.now self.old self.new result }
        ensures stands { (beside : Beside) (told : Option DiskImage)
            → Stands self.old beside told → Stands self.new beside told }
    {
        self.pool.laws();
        self.append(records)
    }

    /// Writes a mini-transaction whose first record makes a space, and whose other records change
    /// pages that are there then: pages that were there before, or new pages of the space, each in
    /// a frame that `fresh` gave.
    ///
    /// It is refused exactly where its spelling has more bytes than are free, and nothing has
    /// changed then.
    pub fn write_space(&mut self, records: &[Record]) -> Result<u64, LogFull>
        requires some { 1 ≤ length records.now }
        requires short { length (spelling records.now) ≤ longest }
        requires creates { IsTrue self.old.right → Creates self.old records.now }
        ensures written { Writes records.now self.old self.new result }
        ensures stands { IfOk result (λ end. (beside : Beside) (told : Option DiskImage)
            → Stands self.old beside told → ForTold told (HasMade records.now)
            → Stands self.new (with_made records.now beside) told) }
    {
        self.pool.laws();
        self.append(records)
    }

    /// Writes a mini-transaction that makes a space longer, and changes each new page of it, in a
    /// frame that `fresh` gave. Its other records change pages that were there, each in its frame.
    ///
    /// It is refused exactly where its spelling has more bytes than are free, and nothing has
    /// changed then.
    pub fn write_longer(&mut self, records: &[Record]) -> Result<u64, LogFull>
        requires some { 1 ≤ length records.now }
        requires short { length (spelling records.now) ≤ longest }
        requires longer { IsTrue self.old.right → Lengthens self.old records.now }
        ensures written { Writes records.now self.old self.new result }
        ensures stands { (beside : Beside) (told : Option DiskImage)
            → Stands self.old beside told → Stands self.new beside told }
    {
        self.pool.laws();
        self.append(records)
    }

    /// Gives up the pages of a space, with all that was changed of them, and writes a
    /// mini-transaction whose first record drops the space, and whose other records change pages of
    /// other spaces, each in its frame. The space has so many pages.
    ///
    /// It is refused exactly where its spelling has more bytes than are free, and nothing has
    /// changed then.
    pub fn drop_space(&mut self, space: u32, pages: u32, records: &[Record]) -> Result<u64, LogFull>
        requires some { 1 ≤ length records.now }
        requires short { length (spelling records.now) ≤ longest }
        requires unpinned { AreUnpinned space self.old.pool.frames }
        requires drops { IsTrue self.old.right → DropsSpace self.old space pages records.now }
        ensures written { WritesWithout space pages records.now self.old self.new result }
        ensures stands { (beside : Beside) (told : Option DiskImage) → NoFilesOf space beside.copy
            → NoFlightsOf space beside → Stands self.old beside told
            → Stands self.new beside told }
    {
        self.room_for(records)?;
        self.pool.laws();
        give_up(&mut self.pool, space, pages);
        self.pool.laws();
        self.append(records)
    }

    // Writes a mini-transaction that leaves frames which show their pages.
    fn append(&mut self, records: &[Record]) -> Result<u64, LogFull>
        requires some { 1 ≤ length records.now }
        requires short { length (spelling records.now) ≤ longest }
        requires shows { IsTrue self.old.right
            → Shows (image_of (written records.now self.old))
            (written records.now self.old).pool.frames }
        ensures written { Writes records.now self.old self.new result }
        ensures spelled { IsSpelled records.now }
    {
        let mut spelled = [0; LONGEST_MTR];
        let length = spell(records, &mut spelled);
        let start = self.ring.end();
        let end = self.ring.append(&spelled[..length])?;
        change_frames(&mut self.pool, records, start, end);
        self.shadow = self.shadow.then(&Note::Wrote(records));
        Ok(end)
    }

    /// Whether the log has room for a mini-transaction of these records.
    ///
    /// It is refused exactly where its spelling has more bytes than are free.
    pub fn room_for(&self, records: &[Record]) -> Result<(), LogFull>
        requires short { length (spelling records.now) ≤ longest }
        ensures room { OnOk result (length (spelling records.now) ≤ free_in self.now.ring) }
        ensures full { IfErr result (λ full. (free_in self.now.ring < length (spelling records.now))
            × (full ≡ record {
              need = length (spelling records.now);
              free = free_in self.now.ring;
            })) }
    {
        let need = spelling_length(records) as u64;
        let free = self.ring.free();
        if free < need {
            return Err(LogFull { need, free });
        }
        Ok(())
    }

    /// How the page in a frame stands to the disk, with the page.
    pub fn state(&self, at: u32) -> &Frame
        requires { HoldsPage (frame_at self.now.pool.frames at) }
        ensures { result.now ≡ frame_at self.now.pool.frames at }
    {
        self.pool.state(at)
    }

    /// A flush of a dirty page begins: what is changed from now on isn't in it.
    pub fn begin_flush(&mut self, at: u32)
        requires holds { HoldsPage (frame_at self.old.pool.frames at) }
        requires waits { is_waiting (frame_at self.old.pool.frames at) ≡ true }
        ensures { self.new ≡ with_change at begun self.old }
    {
        self.pool.begin_flush(at);
    }

    /// A flush ends, with the page on the disk as it was when the flush began. The page is dirty
    /// from the first change after that, or clean where there was none.
    pub fn land_flush(&mut self, at: u32)
        requires holds { HoldsPage (frame_at self.old.pool.frames at) }
        requires flight { IsInFlight (frame_at self.old.pool.frames at) }
        ensures { self.new ≡ with_change at landed self.old }
    {
        self.pool.land_flush(at);
    }

    /// A flush ends in a failure. The page is dirty as before.
    pub fn fail_flush(&mut self, at: u32)
        requires holds { HoldsPage (frame_at self.old.pool.frames at) }
        requires flight { IsInFlight (frame_at self.old.pool.frames at) }
        ensures { self.new ≡ with_change at failed self.old }
    {
        self.pool.fail_flush(at);
    }

    /// The frame of the dirty page to be flushed next, or none where no dirty page waits for that.
    /// Of those whose flush isn't under way it is the one with the least oldest change, and of
    /// several with the same the first by space and page.
    pub fn next_to_flush(&self) -> Option<u32>
        ensures none { IfNone result (AreNotWaiting self.now.pool.frames) }
        ensures some { IfSome result (IsNextToFlush self.now.pool.frames) }
        ensures held { IfSome result (λ at. HoldsPage (frame_at self.now.pool.frames at)) }
    {
        self.pool.next_to_flush()
    }

    /// The pages whose write counts as open, since a flush of each has begun and not landed: each
    /// once, by its space and its number there, in ascending order. Over a disk that tells
    /// what it holds each other page is closed.
    pub fn open_pages(&self, alloc: Global) -> Result<Vec<(u32, u32)>, AllocError>
        ensures open { IfOk result (λ pages. AreOpenPages self.now.pool.frames pages.items) }
        ensures closed { IfOk result (λ pages. (beside : Beside) (m : DiskImage)
            → IsKept self.now beside m → OthersAreClosed self.now beside m pages.items) }
    {
        self.pool.open_pages(alloc)
    }

    /// How many bytes the log may grow by before its floor rises.
    pub fn free(&self) -> u64
        ensures { result ≡ free_in self.now.ring }
    {
        self.ring.free()
    }

    /// The LSN behind the log's last byte.
    pub fn end(&self) -> u64
        ensures { result ≡ end_of self.now.ring }
    {
        self.ring.end()
    }

    /// The log from its floor on.
    pub fn ring(&self) -> &Ring
        ensures { result.now ≡ self.now.ring }
    {
        &self.ring
    }

    /// The LSN of the first byte of the log that is kept.
    pub fn floor(&self) -> u64
        ensures { result ≡ self.now.ring.floor }
    {
        self.ring.floor()
    }

    /// Fills the slice with the bytes of the log from an LSN on.
    pub fn read_log(&self, from: u64, into: &mut [u8])
        requires above { self.now.ring.floor ≤ from }
        requires within { from + length into.old ≤ end_of self.now.ring }
        ensures { into.new
            ≡ take (length into.old) (drop (from - self.now.ring.floor) self.now.ring.bytes) }
    {
        self.ring.read(from, into);
    }

    /// Lets the bytes of the log below an LSN go.
    pub fn raise_floor(&mut self, lsn: u64)
        requires above { self.old.ring.floor ≤ lsn }
        requires within { lsn ≤ end_of self.old.ring }
        ensures floor { self.new ≡ record self.old { ring = raised lsn self.old.ring } }
        ensures stands { (beside : Beside) (told : Option DiskImage)
            → Stands self.old beside told → Stands self.new beside told }
    {
        self.ring.raise_floor(lsn);
    }

    /// The LSN at which the oldest change begins that isn't on the disk, or none where no page is
    /// dirty.
    pub fn oldest(&self) -> Option<u64>
        ensures none { IfNone result (AreClean self.now.pool.frames) }
        ensures some { IfSome result (IsOldest self.now.pool.frames) }
    {
        self.pool.oldest()
    }

    /// What holds of every buffer. The pages are what the log leaves of none.
    pub fn laws(&self)
        ensures buffer { IsBuffer self.now }
        ensures pool { IsPool self.now.pool }
        ensures replays { Replays (log_of self.now.log) (image_of self.now) }
    {
        self.pool.laws();
    }

    /// Where the buffer stands over a disk, the disk's page with its redo is the frame.
    pub fn disk_laws(&self)
        ensures { (beside : Beside) (m : DiskImage) → IsKept self.now beside m
            → DiskIsFrames self.now m }
    {
        let _ = &self.pool;
    }
}

/// What a flush of a page does, step by step, a file that gets longer, and a checkpoint: a buffer
/// that is kept over a disk stays so.
pub fn flush_laws()
    ensures begins { BeginKeeps }
    ensures opens { OpenKeeps }
    ensures lands { LandKeeps }
    ensures rest { RestLands }
    ensures fails { FailKeeps }
    ensures fault { FaultKeeps }
    ensures lengthens { LengthenKeeps }
    ensures checkpoint { CheckpointKeeps }
{}

/// A buffer that is kept over a disk, beside what a clone has of each page: each page keeps the
/// rule, and the buffer is kept beside whatever else keeps it.
pub fn copy_laws()
    ensures kept { CopyKept }
    ensures keeps { CopyKeeps }
{}

/// What a disk gives of a page is a read that the law of the page allows.
pub fn read_laws()
    ensures file { FileReadAllowed }
{}

// Gives up the pages of a space below this number, none of which is pinned.
fn give_up(pool: &mut Pool, space: u32, pages: u32)
    requires { AreUnpinned space pool.old.frames }
    ensures { pool.new ≡ given_up space pages pool.old }
{
    for number in 0..pages {
        pool.laws();
        if let Some(at) = pool.claimant(PageName { space, number }) {
            pool.discard(at);
        }
    }
}

// Each record changes the frame of the page that it names.
fn change_frames(pool: &mut Pool, records: &[Record], start: u64, end: u64)
    requires { start < end }
    ensures { pool.new ≡ after_records records.now start end pool.old }
{
    for entry in records {
        change_frame(pool, entry, start, end);
    }
}

// A record changes the frame of the page that it names, if that has one.
fn change_frame(pool: &mut Pool, entry: &Record, start: u64, end: u64)
    requires { start < end }
    ensures { pool.new
        ≡ changed_at (named_frame pool.old.frames entry.now) entry.now start end pool.old }
{
    let Some(name) = page_changed(entry) else {
        return;
    };
    if let Some(at) = pool.find(name) {
        pool.change(at, entry, start, end);
    }
}

// The page that a record changes.
fn page_changed(entry: &Record) -> Option<PageName>
    ensures { result ≡ page_changed entry.now }
{
    match entry {
        Record::Init { space, page, .. } | Record::Write { space, page, .. } => Some(PageName {
            space: *space,
            number: *page,
        }),
        Record::Extend { .. } | Record::Create { .. } | Record::Drop { .. } => None,
    }
}

// Puts the spelling of a mini-transaction at the front of the bytes, and answers its length.
fn spell(records: &[Record], into: &mut [u8; LONGEST_MTR]) -> usize
    requires some { 1 ≤ length records.now }
    requires short { length (spelling records.now) ≤ longest }
    ensures within { result ≤ longest }
    ensures spelled { Spells (take result into.new) records.now }
{
    all_known(records);
    match encode_into(records, into) {
        Ok(length) => length,
        Err(_) => unreachable!(),
    }
}

// Each record is in its ranges.
fn all_known(records: &[Record])
    ensures { AllByRecursion IsRecord records.now }
{
    for entry in records {
        entry.known();
    }
}
