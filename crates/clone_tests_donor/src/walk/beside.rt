//! A walk over a donor, and what goes on beside it: the plain program, which gets the donor's calls,
//! and the flushes that are under way.
ghost use Rattle.std.specs.Prelude.{◌<◌};

use crate::walk::asking::{Answer, Call, ask};
use crate::walk::counts::{Counts, count, count_in};
use crate::walk::drawn::{below, drawn_bytes, drawn_call};
use crate::walk::plain::Plain;
use clone_donor::Donor;
use clone_memdisk::MemDisk;
use clone_outside::DiskOrder;
use clone_plain::{Cause, EngineRefusal};
use rand_pcg::Pcg32;
use std::alloc::Global;
use std::process::Abort;
use std::test::Fail;

// How many bytes of the log the mini-transaction takes that makes a page behind a chain's end, and
// the most that another takes.
const GROWTH: u64 = 55;

const LONGEST: u64 = 240;

// More than the pages that are dirty at once.
const MOST_DIRTY: u32 = 1_000;

/// A page's space and its number there.
type PageAt = (u32, u32);

/// A walk: its words, and what goes on beside the donor.
#[derive(Drop)]
pub struct Walk {
    words: Pcg32,
    /// The plain program.
    pub plain: Plain,
    // the pages whose flush has begun and hasn't landed
    flights: Vec<PageAt>,
    // how many calls were made
    calls: u64,
    /// The stage of the clone that is under way, or 0.
    pub stage: u8,
    /// What came up.
    pub counts: Counts,
    /// The allocator.
    pub alloc: Global,
}

impl Walk {
    /// A walk by these words, over a donor that was opened, and of which nothing was asked.
    pub fn new(alloc: Global, words: Pcg32) -> Walk {
        Walk {
            words,
            plain: Plain::new(alloc),
            flights: Vec::new(alloc),
            calls: 0,
            stage: 0,
            counts: Counts::new(),
            alloc,
        }
    }

    /// A number below the limit.
    pub fn draw(&mut self, limit: u32) -> u32
        requires { 0 < limit }
        ensures { result < limit }
    {
        below(&mut self.words, limit)
    }

    /// Whether the walk has made so many calls.
    pub fn has_made(&self, calls: u64) -> bool {
        self.calls >= calls
    }

    /// Some steps.
    pub fn go(
        &mut self,
        rt: &impl Abort,
        donor: &mut Donor<MemDisk>,
        steps: u32,
    ) -> Result<(), Fail> {
        for _ in 0..steps {
            self.step(rt, donor)?;
        }
        Ok(())
    }

    /// A step that is drawn: a call of a transaction or a table, a step of a flush, a checkpoint,
    /// archiving, or a fault of the disk.
    pub fn step(&mut self, rt: &impl Abort, donor: &mut Donor<MemDisk>) -> Result<(), Fail> {
        self.calls = self.calls.saturating_add(1);
        match self.draw(24) {
            0 | 1 => self.begin_flush(donor),
            2 | 3 => {
                self.halve(donor);
                Ok(())
            }
            4 | 5 => {
                self.land(donor);
                Ok(())
            }
            6 => self.make_room(donor),
            7 => self.archive_some(donor),
            8 => self.order_fault(donor),
            _ => self.drawn_call(rt, donor),
        }
    }

    // A call, which answers as the plain program does.
    fn drawn_call(&mut self, rt: &impl Abort, donor: &mut Donor<MemDisk>) -> Result<(), Fail> {
        let bytes = drawn_bytes(&mut self.words);
        let call = drawn_call(&mut self.words, self.calls, &bytes);
        let expected = check(&self.plain, call, donor.session());
        let start = donor.end();
        let answer = ask(self.alloc, donor, call);
        let length = donor.end().saturating_sub(start);
        self.count_growth(length);
        self.compare(rt, call, expected, answer, length > 0)
    }

    // A call against which there is this cause or none was answered so.
    fn compare(
        &mut self,
        rt: &impl Abort,
        call: Call,
        expected: Result<(), Cause>,
        answer: Result<Answer, EngineRefusal>,
        is_logged: bool,
    ) -> Result<(), Fail> {
        match answer {
            Ok(answer) => {
                assert!(rt; expected.is_ok());
                self.carry_out(rt, call, answer)
            }
            Err(EngineRefusal::Because(cause)) => {
                assert!(rt; may_refuse(expected, cause));
                self.count_full(cause);
                if is_dropped(call, cause, is_logged) {
                    return self.carry_out(rt, call, Answer::Done);
                }
                Ok(())
            }
            Err(EngineRefusal::NoMemory) => Err(Fail::from("no memory")),
        }
    }

    // The plain program makes the call too, and answers so.
    fn carry_out(&mut self, rt: &impl Abort, call: Call, found: Answer) -> Result<(), Fail> {
        if matches!(call, Call::Drop(_)) {
            count(&mut self.counts.dropped);
        }
        let expected = self.plain.carry_out(call)?;
        assert!(rt; expected == found);
        Ok(())
    }

    fn count_full(&mut self, cause: Cause) {
        if self.stage > 0 && matches!(cause, Cause::LogFull { .. }) {
            count(&mut self.counts.full);
        }
    }

    // A call has written so many bytes to the log.
    fn count_growth(&mut self, length: u64) {
        if length == GROWTH || length > LONGEST {
            count_in(&mut self.counts.grown, self.stage);
        }
    }

    // The flush of the page begins that is dirty for longest.
    fn begin_flush(&mut self, donor: &mut Donor<MemDisk>) -> Result<(), Fail> {
        let Some((space, number)) = donor.oldest_dirty() else {
            return Ok(());
        };
        match donor.flush_begin(space, number) {
            Ok(()) => {
                self.flights.push((space, number))?;
                self.count_flush(space, number);
            }
            // the file was to get longer
            Err(_) => count(&mut self.counts.unheld),
        }
        Ok(())
    }

    // A table has a page for each bucket, and then those behind the ends of its chains.
    fn count_flush(&mut self, space: u32, number: u32) {
        let is_behind = match self.plain.tables().get(&space) {
            Some(buckets) => *buckets <= number,
            None => false,
        };
        if is_behind {
            count_in(&mut self.counts.flushed, self.stage);
        }
    }

    // One of the pages whose flush is under way.
    fn drawn_flight(&mut self) -> Option<usize> {
        let count = self.flights.len().min(u32::MAX as usize) as u32;
        if count == 0 {
            return None;
        }
        Some(self.draw(count) as usize)
    }

    // The first half of a page is written, if that isn't done yet. A flush may fail, and is refused
    // from then on.
    fn halve(&mut self, donor: &mut Donor<MemDisk>) {
        let Some(at) = self.drawn_flight() else {
            return;
        };
        if let Some((space, number)) = self.flights.get(at) {
            let _ = donor.flush_half(*space, *number);
        }
    }

    // A page lands whose first half is written.
    fn land(&mut self, donor: &mut Donor<MemDisk>) {
        let Some(at) = self.drawn_flight() else {
            return;
        };
        if at < self.flights.len() {
            let (space, number) = self.flights.swap_remove(at);
            let _ = donor.flush_half(space, number);
            let _ = donor.flush_land(space, number);
        }
    }

    // Now and then the log gets room: each page lands, all is archived, and a checkpoint is taken.
    fn make_room(&mut self, donor: &mut Donor<MemDisk>) -> Result<(), Fail> {
        if self.draw(64) > 0 {
            return Ok(());
        }
        self.land_all(donor)?;
        donor.archive(u64::MAX)?;
        donor.checkpoint();
        Ok(())
    }

    fn land_all(&mut self, donor: &mut Donor<MemDisk>) -> Result<(), Fail> {
        for _ in 0..MOST_DIRTY {
            self.begin_flush(donor)?;
            self.land(donor);
        }
        Ok(())
    }

    /// Archives some bytes.
    pub fn archive_some(&mut self, donor: &mut Donor<MemDisk>) -> Result<(), Fail> {
        let limit = self.draw(1_500) as u64;
        donor.archive(limit)?;
        Ok(())
    }

    // One of the next calls of the disk fails.
    fn order_fault(&mut self, donor: &mut Donor<MemDisk>) -> Result<(), Fail> {
        let call = 1 + self.draw(6) as u64;
        if call <= 3 {
            donor.order(DiskOrder::FailAt { call })?;
        }
        Ok(())
    }

    /// A block is read.
    pub fn count_block(&mut self) {
        if !self.flights.is_empty() {
            count(&mut self.counts.open);
        }
    }
}

// The first cause against a call, if there is one. No table is dropped while a session stands.
fn check(plain: &Plain, call: Call, session: Option<u64>) -> Result<(), Cause> {
    match (call, session) {
        (Call::Drop(table), Some(session)) if plain.tables().contains_key(&table) => {
            Err(Cause::CloneRunning { session })
        }
        _ => plain.check(call),
    }
}

// Whether a call against which there is this cause or none may be refused so. Where there is none
// the log or the pool may be full, a flush of the table under way, or the disk may fail.
fn may_refuse(expected: Result<(), Cause>, cause: Cause) -> bool {
    match cause {
        Cause::LogFull { .. } | Cause::PoolFull { .. } | Cause::InFlight | Cause::DiskFault => {
            expected.is_ok()
        }
        cause => expected == Err(cause),
    }
}

// Whether a table is gone though the disk failed: the log tells it.
fn is_dropped(call: Call, cause: Cause, is_logged: bool) -> bool {
    is_logged && matches!(call, Call::Drop(_)) && matches!(cause, Cause::DiskFault)
}
