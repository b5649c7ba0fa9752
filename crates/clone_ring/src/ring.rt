//! The log from its floor to its end, which lies on a row of bytes and goes round on it: its first
//! byte, the one at the LSN `floor`, stands at `start`, each next byte has the next LSN and stands
//! at the next place, and behind the row's last place comes its first. The end, `floor` and `len`,
//! is below 2^39.
ghost use Rattle.std.specs.Prelude.{◌≡◌, ◌≤◌, ◌<◌, ◌+◌, ◌-◌, ◌++◌, length, take, drop, IfOk};
ghost use Rattle.clone_ring.specs.Window.{Appends, appended, empty, end_of, free_in, raised};
ghost use Rattle.clone_ring.specs.Row.{IsFurther};

use crate::LogFull;
use crate::blocks::Blocks;
use clone_base::{FIRST_LSN, LSN_LIMIT};
use std::alloc::{AllocError, Global};
use std::marker::Model;

/// The bytes of the redo log from its floor to its end. Both are LSNs, and the end is below 2^39.
#[derive(Drop)]
pub struct Ring {
    row: Blocks,
    start: usize,
    len: usize,
    floor: u64,
}

impl Model for Ring {
    ghost use Rattle.std.specs.Prelude.{◌<◌, ◌+◌, take};
    ghost use Rattle.clone_base.specs.declared.limits.TheConstants.{LSN_LIMIT};
    ghost use Rattle.clone_ring.specs.Window.{Window, window_code};
    ghost use Rattle.clone_ring.specs.Row.{LiesOn, round_from};

    ghost Value = { Window };

    ghost coded = { window_code };

    ghost view = { λ r. record {
      floor = r.floor;
      bytes = take r.len (round_from r.start r.row.bytes);
      size = r.row.size;
    } };

    ghost invariant = { λ r. LiesOn r.row r.start r.len × (r.floor + r.len < LSN_LIMIT) };
}

impl Ring {
    /// A ring that has room for so many bytes, with floor and end at 8,192. No later call takes
    /// memory.
    pub fn new(alloc: Global, size: u64) -> Result<Ring, AllocError>
        ensures { IfOk result (λ ring. ring ≡ empty size) }
    {
        Ok(Ring {
            row: Blocks::new(alloc, size as usize)?,
            start: 0,
            len: 0,
            floor: FIRST_LSN,
        })
    }

    /// The LSN of the first byte that is kept.
    pub fn floor(&self) -> u64
        ensures { result ≡ self.now.floor }
    {
        self.floor
    }

    /// The LSN behind the last byte.
    pub fn end(&self) -> u64
        ensures value { result ≡ end_of self.now }
        ensures below { result < LSN_LIMIT }
    {
        self.floor + self.len as u64
    }

    /// How many bytes may be appended: as many as there is room for, with the end below 2^39.
    pub fn free(&self) -> u64
        ensures value { result ≡ free_in self.now }
        ensures room { length self.now.bytes + result ≤ self.now.size }
    {
        let room = (self.row.size() - self.len) as u64;
        room.min(LSN_LIMIT - 1 - self.end())
    }

    /// Appends bytes, and answers the log's end. It takes no memory, and writes over no byte from
    /// the floor on. It is refused exactly where there are more bytes than are free, and nothing
    /// has changed then.
    pub fn append(&mut self, bytes: &[u8]) -> Result<u64, LogFull>
        ensures { Appends bytes.now self.old self.new result }
    {
        let need = bytes.len() as u64;
        let free = self.free();
        if free < need {
            return Err(LogFull { need, free });
        }
        let mut done = 0;
        while done < bytes.len() {
            done += self.append_piece(&bytes[done..]);
        }
        Ok(self.end())
    }

    /// Lets the bytes below an LSN go.
    pub fn raise_floor(&mut self, lsn: u64)
        requires above { self.old.floor ≤ lsn }
        requires within { lsn ≤ end_of self.old }
        ensures { self.new ≡ raised lsn self.old }
    {
        let gone = (lsn - self.floor) as usize;
        self.start = further(self.row.size(), self.start, gone);
        self.len -= gone;
        self.floor = lsn;
    }

    /// Fills the slice with the bytes from an LSN on.
    pub fn read(&self, from: u64, into: &mut [u8])
        requires above { self.now.floor ≤ from }
        requires within { from + length into.old ≤ end_of self.now }
        ensures { into.new ≡ take (length into.old) (drop (from - self.now.floor) self.now.bytes) }
    {
        let offset = (from - self.floor) as usize;
        let mut done = 0;
        while done < into.len() {
            done += self.read_piece(offset + done, &mut into[done..]);
        }
    }

    // Appends a front of the bytes, as many as one block takes, and answers how many.
    fn append_piece(&mut self, bytes: &[u8]) -> usize
        requires some { 0 < length bytes.now }
        requires free { length bytes.now ≤ free_in self.old }
        ensures more { 0 < result }
        ensures within { result ≤ length bytes.now }
        ensures appended { self.new ≡ appended (take result bytes.now) self.old }
    {
        let at = further(self.row.size(), self.start, self.len);
        let front = bytes.len().min(self.row.size() - at);
        let count = self.row.write_piece(at, &bytes[..front]);
        self.len += count;
        count
    }

    // Fills a front of the slice with the bytes from an offset on, as many as one block has, and
    // answers how many.
    fn read_piece(&self, offset: usize, into: &mut [u8]) -> usize
        requires some { 0 < length into.old }
        requires within { offset + length into.old ≤ length self.now.bytes }
        ensures more { 0 < result }
        ensures few { result ≤ length into.old }
        ensures filled { into.new
            ≡ take result (drop offset self.now.bytes) ++ drop result into.old }
    {
        let at = further(self.row.size(), self.start, offset);
        let front = into.len().min(self.row.size() - at);
        self.row.read_piece(at, &mut into[..front])
    }
}

// The place on a row of this size that is so many bytes further round.
fn further(size: usize, start: usize, offset: usize) -> usize
    requires start { start ≤ size }
    requires offset { offset ≤ size }
    ensures place { IsFurther size start offset result }
    ensures within { result ≤ size }
{
    let rest = size - start;
    if offset < rest {
        start + offset
    } else {
        offset - rest
    }
}
