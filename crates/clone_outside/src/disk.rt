ghost use Rattle.std.specs.Prelude.{◌≡◌, ◌≢◌, Err, IfOk, IsErr, OnErr, OnOk};
ghost use Rattle.std.specs.List.Sorted.{IsStrictlyIncreasing};

use crate::Refusal;
use clone_base::PAGE_SIZE;
use std::alloc::{AllocError, Global};

/// How many bytes of a page are written at a time.
pub const HALF_PAGE: usize = PAGE_SIZE / 2;

/// How many bytes the mark of a disk has.
pub const MARK_SIZE: usize = 64;

/// A page as a disk holds it.
#[derive(Clone, Copy)]
pub struct Held {
    /// The page's bytes.
    pub bytes: [u8; PAGE_SIZE],
    /// Whether a write of the page is open.
    pub writing: bool,
}

/// What a disk in memory is to do. A real disk does nothing on it.
#[derive(Clone, Copy, Debug, PartialEq, Eq)]
pub enum DiskOrder {
    /// The call with this number fails, where the next call has number 1.
    FailAt { call: u64 },
    /// From now on a read of an open page gives nothing but this byte.
    Tear { byte: u8 },
    /// After so many calls the disk stops: each later call is a fault. What it keeps of what was
    /// written since the last sync is by the choice: nothing (0), all (1), the first halves of
    /// pages alone (2), or the byte 255 in each half that was written (3). Of the spaces and of the
    /// mark it keeps all, except by choice 0.
    Stop { calls: u64, choice: u8 },
    /// A disk that stopped, or that is to stop, goes on with what the stop leaves.
    Again,
}

/// A disk that holds pages of 4,096 bytes by space and number, and a mark of 64 bytes or none.
///
/// A page is written in halves. Between the first half and the rest its write is open, and so it is
/// after a fault of either; what a read of an open page gives is left open.
///
/// `Fault` comes only where the count of faults rose, and `NoMemory` where there was no memory.
/// After `NoMemory` the disk is as before.
///
/// A disk may tell what a stop at any moment leaves. What it holds itself, with no write open, is
/// always one of the images that a stop may leave; each call that changes the disk says so.
pub trait PageDisk {
    ghost use Rattle.clone_outside.specs.Disk.{ForTold, GivesQuiet, space_numbers, page_count, half_written, rest_written, with_extended, with_created, with_removed, with_mark};
    ghost use Rattle.clone_outside.specs.DiskCalls.{Asks, DiskState, IsGiven, Reads, Syncs, Takes, Writes};
    ghost use Rattle.clone_outside.specs.Stops as change;

    /// What it holds and what a stop may leave, each of them none where that is not told, its count
    /// of faults, and the orders that were given.
    ghost state: { Self → DiskState };

    /// How often the disk failed. The count never falls, and one that stands at 2^64 - 1 counts as
    /// risen.
    fn faults(&self) -> u64
        ensures { result ≡ (state self.now).failures };

    /// The numbers of the spaces that are there, ascending.
    fn spaces(&mut self, alloc: Global) -> Result<Vec<u32>, Refusal>
        ensures ascending { IfOk result (λ all. IsStrictlyIncreasing all.items) }
        ensures all { IfOk result
            (λ all. ForTold (state self.old).told (λ m. all.items ≡ space_numbers m)) }
        ensures asks { Asks (state self.old) (state self.new) result };

    /// How many pages a space has, or none where it isn't there.
    fn pages(&mut self, space: u32) -> Result<Option<u32>, Refusal>
        ensures count { IfOk result
            (λ n. ForTold (state self.old).told (λ m. n ≡ page_count m space)) }
        ensures asks { Asks (state self.old) (state self.new) result };

    /// Reads a page. It takes no memory, so each error is `Fault`. What comes of a page that is
    /// open or isn't there, and what `into` has after an error, is left open.
    fn read_page(
        &mut self,
        space: u32,
        page: u32,
        into: &mut [u8; PAGE_SIZE],
    ) -> Result<(), Refusal>
        ensures quiet { OnOk result
            (ForTold (state self.old).told (λ m. GivesQuiet m space page into.new)) }
        ensures memory { result ≢ Err Refusal.NoMemory }
        ensures reads { Reads (IsErr result) (state self.old) (state self.new) };

    /// Writes the first 2,048 bytes of a page, and opens its write. After `Fault` the write is open
    /// too, and what bytes the page has is left open. A page that isn't there stays so.
    fn write_half(&mut self, space: u32, page: u32, from: &[u8; PAGE_SIZE]) -> Result<(), Refusal>
        ensures writes { Writes change.WriteHalf space page (half_written from.now)
            (state self.old) (state self.new) result };

    /// Writes the other 2,048 bytes of a page, and closes its write. After `Fault` the write is
    /// open, and what bytes the page has is left open. A page that isn't there stays so.
    fn write_rest(&mut self, space: u32, page: u32, from: &[u8; PAGE_SIZE]) -> Result<(), Refusal>
        ensures writes { Writes change.WriteRest space page (rest_written from.now)
            (state self.old) (state self.new) result };

    /// Gives a space that has fewer pages so many, the new ones of zero bytes. A longer space stays
    /// as it is, and so does one that isn't there. After `Fault` the space is as before or as the
    /// call leaves it.
    fn extend(&mut self, space: u32, pages: u32) -> Result<(), Refusal>
        ensures takes { Takes (change.Extend space pages) (λ m. with_extended m space pages)
            (state self.old) (state self.new) result };

    /// Makes a space of so many pages of zero bytes, in the place of one of the same number. After
    /// `Fault` the space is as before or as the call leaves it.
    fn create(&mut self, space: u32, pages: u32) -> Result<(), Refusal>
        ensures takes { Takes (change.Create space pages) (λ m. with_created m space pages)
            (state self.old) (state self.new) result };

    /// Takes a space away, if it is there. It takes no memory, so each error is `Fault`, and after
    /// it the space is as before or as the call leaves it.
    fn remove(&mut self, space: u32) -> Result<(), Refusal>
        ensures memory { result ≢ Err Refusal.NoMemory }
        ensures takes { Takes (change.Remove space) (λ m. with_removed m space)
            (state self.old) (state self.new) result };

    /// The bytes of the mark, or none where there is no mark.
    fn read_mark(&mut self) -> Result<Option<[u8; MARK_SIZE]>, Refusal>
        ensures mark { IfOk result (λ mark. ForTold (state self.old).told (λ m. mark ≡ m.mark)) }
        ensures asks { Asks (state self.old) (state self.new) result };

    /// Makes these bytes the mark. After `Fault` the mark is as before or as the call leaves it.
    fn write_mark(&mut self, mark: &[u8; MARK_SIZE]) -> Result<(), Refusal>
        ensures takes { Takes (change.WriteMark mark.now) (λ m. with_mark m mark.now)
            (state self.old) (state self.new) result };

    /// Brings what was written to where it stays.
    fn sync(&mut self) -> Result<(), Refusal>
        ensures syncs { Syncs (state self.old) (state self.new) result };

    /// Tells a disk in memory what to do. A real disk does nothing, and answers Ok. The error is
    /// that memory ran out, and the disk is as before.
    fn order(&mut self, order: DiskOrder) -> Result<(), AllocError>
        ensures given { OnOk result (IsGiven order (state self.old) (state self.new)) }
        ensures refused { OnErr result (state self.new ≡ state self.old) };
}
