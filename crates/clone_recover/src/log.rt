ghost use Rattle.std.specs.Prelude.{◌≡◌, ◌≤◌, ◌<◌, ◌+◌, ◌*◌, ◌++◌, take, drop, length, true, false};
ghost use Rattle.clone_outside.specs.DiskCalls.{Reads};
ghost use Rattle.clone_base.specs.declared.limits.TheConstants.{PAGE_SIZE, LSN_LIMIT};

use crate::RecoverRefusal;
use crate::refusal::damaged_redo;
use crate::scan::{first_foreign, names_foreign};
use clone_base::{PAGE_SIZE, REDO_SPACE};
use clone_mtr::{DecodeRefusal, Records, decode};
use clone_outside::{CloneEnd, PageDisk};

// How many bytes of the log are at hand: a mini-transaction lies on one page or on two.
const WINDOW: usize = 2 * PAGE_SIZE;

const PAGE_BYTES: u64 = PAGE_SIZE as u64;

/// The redo bytes of a disk, read from their front a mini-transaction at a time. Two pages are at
/// hand.
#[derive(Drop)]
pub struct Log {
    // how many bytes the log has, and how many of them the redo's space has
    total: u64,
    available: u64,
    // how many were read
    at: u64,
    // the first page at hand
    first: u32,
    window: [u8; WINDOW],
    ghost begun: { PAGE_SIZE * first ≤ at },
    ghost at_hand: { at ≤ PAGE_SIZE * first + 2 * PAGE_SIZE },
    ghost within: { at ≤ available },
    ghost most: { available ≤ total },
    ghost limit: { total < LSN_LIMIT },
}

impl Log {
    ghost use Rattle.std.specs.Prelude.{◌≡◌, ◌≤◌, ◌<◌, ◌+◌, ◌*◌, [], ◌∷◌, ◌++◌, List, take, drop, length, OnOk, IfOk, IfErr, IfSome, IsErrOf};
    ghost use Rattle.clone_mtr.specs.declared.record.Record.{Record};
    ghost use Rattle.clone_outside.specs.Disk.{DiskImage};
    ghost use Rattle.clone_recover.specs.Refusals.{IsOfDisk};
    ghost use Rattle.clone_recover.specs.Reading.{redo_length, IsNoRedo, read_of, total_of, rest_of, base_of, HasRead, ReadsOn, KeepsOn, Loads, HasNext, IsAhead, IsOfRedo};

    /// The log from the checkpoint to the end of a clone, of which nothing was read.
    pub fn open<R: PageDisk>(disk: &mut R, end: &CloneEnd) -> Result<Log, RecoverRefusal>
        ensures reads { IfOk result (ReadsOn (R.state disk.old).told []) }
        ensures total { IfOk result (λ log. total_of log ≡ redo_length end.now) }
        ensures cause { IfErr result IsOfDisk }
        ensures asks { Reads (IsErrOf result RecoverRefusal.DiskFault)
            (R.state disk.old) (R.state disk.new) }
    {
        let total = end.lsn - end.checkpoint;
        let pages = disk.pages(REDO_SPACE)?.unwrap_or(0);
        let mut log = Log {
            total,
            available: total.min(PAGE_BYTES * u64::from(pages)),
            at: 0,
            first: 0,
            window: [0; WINDOW],
        };
        log.load(disk, 0, 0)?;
        log.load(disk, 1, PAGE_SIZE)?;
        Ok(log)
    }

    /// How many bytes were read.
    pub fn at(&self) -> u64
        ensures { result ≡ read_of self.now }
    {
        self.at
    }

    /// Whether the log goes on. The page that has its next byte is at hand then.
    pub fn goes_on<R: PageDisk>(&mut self, disk: &mut R) -> Result<bool, RecoverRefusal>
        ensures keeps { OnOk result (KeepsOn (R.state disk.old).told self.old self.new) }
        ensures ready { IfOk result (λ more. more ≡ true → HasNext self.new) }
        ensures end { IfOk result (λ more. more ≡ false → read_of self.new ≡ total_of self.new) }
        ensures read { read_of self.new ≡ read_of self.old }
        ensures total { total_of self.new ≡ total_of self.old }
        ensures cause { IfErr result IsOfDisk }
        ensures reads { Reads (IsErrOf result RecoverRefusal.DiskFault)
            (R.state disk.old) (R.state disk.new) }
    {
        if self.at == self.total {
            return Ok(false);
        }
        self.make_ready(disk)?;
        Ok(true)
    }

    /// The next mini-transaction, and how many bytes it has. `Damaged` comes where none stands
    /// there, or where one of its records names a space that is no table.
    pub fn next(&self) -> Result<(Records<'_>, u64), RecoverRefusal>
        requires { HasNext self.now }
        ensures next { IfOk result (IsAhead self.now) }
        ensures most { IfOk result (λ next. read_of self.now + next.1 ≤ total_of self.now) }
        ensures redo { IfErr result IsOfRedo }
        ensures cause { IfErr result (λ refusal. (m : DiskImage) (done : List (List Record))
            → HasRead m done self.now → IsNoRedo m (total_of self.now) refusal) }
    {
        match decode(self.rest()) {
            Ok((mtr, _)) if names_foreign(mtr.again()) => Err(self.foreign()),
            Ok((mtr, length)) => Ok((mtr, length as u64)),
            Err(refusal) => Err(self.broken(refusal)),
        }
    }

    /// Takes the next mini-transaction, of so many bytes, as read.
    pub fn pass(&mut self, count: u64)
        requires { count ≤ length (rest_of self.old) }
        ensures read { (m : DiskImage) (done : List (List Record)) (mtr : List Record)
            → HasRead m done self.old → IsAhead self.old (mtr, count)
            → HasRead m (done ++ mtr ∷ []) self.new }
        ensures at { read_of self.new ≡ read_of self.old + count }
        ensures total { total_of self.new ≡ total_of self.old }
    {
        self.at += count;
    }

    // Where in the log the first page at hand begins.
    fn base(&self) -> u64
        ensures value { result ≡ base_of self.now }
        ensures most { result ≤ read_of self.now }
        ensures hand { read_of self.now ≤ result + 2 * PAGE_SIZE }
    {
        PAGE_BYTES * u64::from(self.first)
    }

    // The bytes at hand that weren't read.
    fn rest(&self) -> &[u8]
        ensures value { result.now ≡ rest_of self.now }
        ensures most { length result.now ≤ 2 * PAGE_SIZE }
    {
        let from = (self.at - self.base()) as usize;
        let to = (self.available - self.base()).min(WINDOW as u64) as usize;
        &self.window[from..to]
    }

    // Makes the page at hand that has the next byte.
    fn make_ready<R: PageDisk>(&mut self, disk: &mut R) -> Result<(), RecoverRefusal>
        ensures keeps { OnOk result (KeepsOn (R.state disk.old).told self.old self.new) }
        ensures near { OnOk result (read_of self.new ≤ base_of self.new + PAGE_SIZE) }
        ensures read { read_of self.new ≡ read_of self.old }
        ensures total { total_of self.new ≡ total_of self.old }
        ensures cause { IfErr result IsOfDisk }
        ensures reads { Reads (IsErrOf result RecoverRefusal.DiskFault)
            (R.state disk.old) (R.state disk.new) }
    {
        if self.at - self.base() < PAGE_BYTES {
            return Ok(());
        }
        self.turn();
        self.load(disk, self.first + 1, PAGE_SIZE)
    }

    // Takes the second page at hand for the first.
    fn turn(&mut self)
        requires { base_of self.old + PAGE_SIZE ≤ read_of self.old }
        ensures first { self.new.first ≡ self.old.first + 1 }
        ensures front { take PAGE_SIZE self.new.window ≡ drop PAGE_SIZE self.old.window }
        ensures long { length self.new.window ≡ 2 * PAGE_SIZE }
        ensures at { self.new.at ≡ self.old.at }
        ensures total { self.new.total ≡ self.old.total }
        ensures available { self.new.available ≡ self.old.available }
    {
        self.window.rotate_left(PAGE_SIZE);
        self.first += 1;
    }

    // Reads a page of the log to an offset of the window, if the log has bytes on it.
    fn load<R: PageDisk>(
        &mut self,
        disk: &mut R,
        page: u32,
        to: usize,
    ) -> Result<(), RecoverRefusal>
        requires { to ≤ PAGE_SIZE }
        ensures loads { OnOk result (Loads (R.state disk.old).told page to self.old self.new) }
        ensures long { length self.new.window ≡ 2 * PAGE_SIZE }
        ensures first { self.new.first ≡ self.old.first }
        ensures at { self.new.at ≡ self.old.at }
        ensures total { self.new.total ≡ self.old.total }
        ensures available { self.new.available ≡ self.old.available }
        ensures cause { IfErr result IsOfDisk }
        ensures reads { Reads (IsErrOf result RecoverRefusal.DiskFault)
            (R.state disk.old) (R.state disk.new) }
    {
        if PAGE_BYTES * u64::from(page) >= self.available {
            return Ok(());
        }
        let mut bytes = [0; PAGE_SIZE];
        disk.read_page(REDO_SPACE, page, &mut bytes)?;
        put(&mut self.window, to, &bytes);
        Ok(())
    }

    // The refusal for a record that names a space that is no table.
    fn foreign(&self) -> RecoverRefusal
        ensures { IsOfRedo result }
    {
        match first_foreign(self.rest()) {
            Some(at) => damaged_redo(self.page_at(at.start)),
            None => damaged_redo(self.page_at(0)),
        }
    }

    // The refusal for bytes that begin no mini-transaction. It names the page of the first byte
    // against the grammar or that is missing, or of an earlier record that names a space that is no
    // table.
    fn broken(&self, refusal: DecodeRefusal) -> RecoverRefusal
        ensures { IsOfRedo result }
    {
        let page = match refusal {
            DecodeRefusal::Short => (self.available / PAGE_BYTES) as u32,
            _ => self.broken_page(),
        };
        match self.foreign_at() {
            Some(offset) => damaged_redo(page.min(self.page_at(offset))),
            None => damaged_redo(page),
        }
    }

    // Where a record begins that names a space that is no table. A record names one once it is
    // whole, so one that is itself against the grammar names none.
    fn foreign_at(&self) -> Option<usize>
        ensures { IfSome result (λ offset. offset ≤ 2 * PAGE_SIZE) }
    {
        let rest = self.rest();
        let at = first_foreign(rest)?;
        match decode(&rest[..at.end]) {
            Err(DecodeRefusal::Short) => Some(at.start),
            _ => None,
        }
    }

    // The page of the first byte against the grammar: the second at hand where the bytes on the
    // first begin a mini-transaction.
    fn broken_page(&self) -> u32 {
        let rest = self.rest();
        let behind = self.base() + PAGE_BYTES;
        if self.at + rest.len() as u64 <= behind {
            return self.first;
        }
        match decode(&rest[..behind.saturating_sub(self.at) as usize]) {
            Err(DecodeRefusal::Short) => self.first + 1,
            _ => self.first,
        }
    }

    // The page of the byte at this offset behind those that were read.
    fn page_at(&self, offset: usize) -> u32
        requires { offset ≤ 2 * PAGE_SIZE }
    {
        ((self.at + offset as u64) / PAGE_BYTES) as u32
    }
}

// Puts the bytes of a page at an offset of the window.
fn put(window: &mut [u8; WINDOW], to: usize, bytes: &[u8; PAGE_SIZE])
    requires { to ≤ PAGE_SIZE }
    ensures value { window.new
        ≡ take to window.old ++ (bytes.now ++ drop (to + PAGE_SIZE) window.old) }
    ensures long { length window.new ≡ 2 * PAGE_SIZE }
{
    window[to..to + PAGE_SIZE].copy_from_slice(bytes);
}
