//! The calls of the donor's engine that come between any two steps of the ends.

use crate::walk::drawn::below;
use crate::walk::plain::Plain;
use clone_donor::Donor;
use clone_memdisk::MemDisk;
use clone_model::{BucketCount, Change, TableNumber, Value};
use clone_plain::Undone;
use rand_pcg::Pcg32;
use std::alloc::Global;
use std::test::Fail;

// So few transactions that most calls find theirs open.
const TRANSACTIONS: u32 = 5;

// So many keys that chains get long.
const KEYS: u32 = 600;

// So many tables at most.
const MOST_TABLES: u32 = 9;

// More than the pages that are dirty at once.
const MOST_DIRTY: u32 = 100;

/// The plain donor, and the flushes that are under way.
#[derive(Drop)]
pub struct Engine {
    /// The plain donor.
    pub plain: Plain,
    /// How many tables were made while a session stood.
    pub made: u64,
    flights: Vec<(u32, u32)>,
    tables: u32,
    calls: u64,
    alloc: Global,
}

impl Engine {
    /// Nothing was called yet.
    pub fn new(alloc: Global) -> Engine {
        Engine {
            plain: Plain::new(alloc),
            made: 0,
            flights: Vec::new(alloc),
            tables: 0,
            calls: 0,
            alloc,
        }
    }

    /// A call that is drawn.
    pub fn call(&mut self, words: &mut Pcg32, donor: &mut Donor<MemDisk>) -> Result<(), Fail> {
        match below(words, 64) {
            0..=3 => self.begin_flush(donor)?,
            4..=7 => self.halve(words, donor),
            8..=11 => self.land(words, donor),
            12 | 13 => self.make_room(words, donor)?,
            14 => {
                let _ = donor.archive(below(words, 1_500) as u64)?;
            }
            15 => self.create(words, donor),
            16..=21 => self.begin(words, donor)?,
            22..=49 => self.put(words, donor)?,
            50..=53 => self.delete(words, donor)?,
            54 | 55 => self.undo(words, donor)?,
            _ => self.commit(words, donor)?,
        }
        Ok(())
    }

    // Now and then a table more is made, with one to three pages.
    fn create(&mut self, words: &mut Pcg32, donor: &mut Donor<MemDisk>) {
        if self.tables >= MOST_TABLES || below(words, 16) > 0 {
            return;
        }
        let number = self.tables.saturating_add(1);
        let pages = BucketCount::new(below(words, 3).saturating_add(1));
        let (Some(table), Some(buckets)) = (TableNumber::new(number), pages) else {
            return;
        };
        if donor.create(table, buckets).is_ok() {
            self.tables = number;
            if donor.session().is_some() {
                self.made = self.made.saturating_add(1);
            }
        }
    }

    // One of the tables, or the next.
    fn drawn_table(&self, words: &mut Pcg32) -> u32 {
        below(words, self.tables.min(MOST_TABLES) + 1) + 1
    }

    fn begin(&mut self, words: &mut Pcg32, donor: &mut Donor<MemDisk>) -> Result<(), Fail> {
        let writer = below(words, 8);
        self.calls = self.calls.saturating_add(1);
        if let Ok(trx) = donor.begin(self.alloc, writer, self.calls) {
            self.plain.begin(trx, writer, self.calls)?;
        }
        Ok(())
    }

    fn put(&mut self, words: &mut Pcg32, donor: &mut Donor<MemDisk>) -> Result<(), Fail> {
        let trx = below(words, TRANSACTIONS);
        let table = self.drawn_table(words);
        let key = below(words, KEYS) as u64;
        let bytes = [below(words, 256) as u8; 64];
        let length = below(words, 64) as usize;
        let value = Value::new(&bytes[..length]).ok_or("a value is too long")?;
        if donor.put(trx, table, key, value.bytes()).is_ok() {
            let value = Some(value);
            self.plain.change(trx, Change { table, key, value })?;
        }
        Ok(())
    }

    fn delete(&mut self, words: &mut Pcg32, donor: &mut Donor<MemDisk>) -> Result<(), Fail> {
        let trx = below(words, TRANSACTIONS);
        let table = self.drawn_table(words);
        let key = below(words, KEYS) as u64;
        if donor.delete(trx, table, key).is_ok() {
            let value = None;
            self.plain.change(trx, Change { table, key, value })?;
        }
        Ok(())
    }

    fn undo(&mut self, words: &mut Pcg32, donor: &mut Donor<MemDisk>) -> Result<(), Fail> {
        let trx = below(words, TRANSACTIONS);
        match donor.undo_one(trx) {
            Ok(Undone::Ended) => self.plain.end(trx),
            Ok(_) => self.plain.undo(trx),
            Err(_) => {}
        }
        Ok(())
    }

    fn commit(&mut self, words: &mut Pcg32, donor: &mut Donor<MemDisk>) -> Result<(), Fail> {
        let trx = below(words, TRANSACTIONS);
        if donor.commit(trx).is_ok() {
            self.plain.commit(trx)?;
        }
        Ok(())
    }

    // The flush of the page begins that is dirty for longest.
    fn begin_flush(&mut self, donor: &mut Donor<MemDisk>) -> Result<(), Fail> {
        let Some((space, number)) = donor.oldest_dirty() else {
            return Ok(());
        };
        if donor.flush_begin(space, number).is_ok() {
            self.flights.push((space, number))?;
        }
        Ok(())
    }

    // One of the pages whose flush is under way.
    fn drawn_flight(&self, words: &mut Pcg32) -> Option<usize> {
        let count = self.flights.len().min(u32::MAX as usize) as u32;
        if count == 0 {
            return None;
        }
        Some(below(words, count) as usize)
    }

    // The first half of a page is written, if that isn't done yet.
    fn halve(&self, words: &mut Pcg32, donor: &mut Donor<MemDisk>) {
        let Some(at) = self.drawn_flight(words) else {
            return;
        };
        if let Some((space, number)) = self.flights.get(at) {
            let _ = donor.flush_half(*space, *number);
        }
    }

    // A page lands.
    fn land(&mut self, words: &mut Pcg32, donor: &mut Donor<MemDisk>) {
        let Some(at) = self.drawn_flight(words) else {
            return;
        };
        if at < self.flights.len() {
            let (space, number) = self.flights.swap_remove(at);
            let _ = donor.flush_half(space, number);
            let _ = donor.flush_land(space, number);
        }
    }

    // Now and then the log gets room: each page lands, and a checkpoint is taken.
    fn make_room(&mut self, words: &mut Pcg32, donor: &mut Donor<MemDisk>) -> Result<(), Fail> {
        if below(words, 16) > 0 {
            return Ok(());
        }
        for _ in 0..MOST_DIRTY {
            self.begin_flush(donor)?;
            self.land(words, donor);
        }
        let _ = donor.checkpoint();
        Ok(())
    }

    /// Makes three tables.
    pub fn make_tables(&mut self, donor: &mut Donor<MemDisk>) -> Result<(), Fail> {
        for table in 1..4 {
            let (Some(table), Some(buckets)) = (TableNumber::new(table), BucketCount::new(2)) else {
                return Err(Fail::from("no table"));
            };
            if donor.create(table, buckets).is_err() {
                return Err(Fail::from("no table"));
            }
        }
        self.tables = 3;
        Ok(())
    }
}
