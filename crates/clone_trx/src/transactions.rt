//! The state of a donor's transactions. At most 64 are open, each with at most 160 changes; each
//! row that one changed is locked by it, each lock is held by an open transaction, and its row is
//! of a table that is there. The binlog has room for the commit of each open transaction, so that
//! a commit takes no memory.
ghost use Rattle.std.specs.Prelude.{◌≡◌, ◌<◌, ◌≤◌, ◌%◌, ℕ, None, Some, length, option_map, unwrap_or, IfOk, OnOk, IfSome, IsSome, IsTrue, MatchResult};
ghost use Rattle.std.specs.Option.{option_copied};
ghost use Rattle.std.specs.List.{AllByRecursion};
ghost use Rattle.std.specs.FinMap as finite;
ghost use Rattle.clone_base.specs.declared.limits.TheConstants.{TRANSACTION_LIMIT};
ghost use Rattle.clone_outside.specs.Causes.{Rose};
ghost use Rattle.clone_undo.specs.Entries.{IsEntry};
ghost use Rattle.clone_undo.specs.Places.{capacity};
ghost use Rattle.clone_undo.specs.Slots.{UndoSlot};
ghost use Rattle.clone_model.specs.History.{fold};
ghost use Rattle.clone_image.specs.Image.{Image, page_of};
ghost use Rattle.clone_image.specs.Recovered.{recovered, undo_slot_of};
ghost use Rattle.clone_image.specs.Rows.{HasRows};
ghost use Rattle.clone_contents.specs.Contents.{contents_of};
ghost use Rattle.clone_buffer.specs.Buffered.{Buffered, image_of};
ghost use Rattle.clone_plain.specs.Donor.{Donor, no_donor, history};
ghost use Rattle.clone_plain.specs.Causes.{create_cause, drop_cause, begin_cause, row_locked, least_unused};
ghost use Rattle.clone_plain.specs.Effects.{created, Begins};
ghost use Rattle.clone_plain.specs.declared.refusal.Cause.TheVariants.{DiskFault};
ghost use Rattle.clone_plain.specs.declared.refusal.EngineRefusal.TheVariants.{Because};
ghost use Rattle.clone_trx.specs.Calls.{create_way, begin_way};
ghost use Rattle.clone_trx.specs.Sound.{HasChain, HasSize, IsKept};
ghost use Rattle.clone_trx.specs.Kept.{IsSafe, Keeps};
ghost use Rattle.clone_trx.specs.Missed.{MissedLeft};
ghost use Rattle.clone_trx.specs.Ways.{Answers, StaysStanding};

mod change;
mod creating;
mod dropping;
mod ending;
mod getting;
mod growing;
mod starting;
mod undoing;

use crate::active::Active;
use crate::locks::Locks;
use clone_base::Counts;
use clone_buffer::Buffer;
use clone_model::{Binlog, BucketCount, Commit, Drops, TableNumber};
use clone_outside::PageDisk;
use clone_plain::{Cause, EngineRefusal, TABLE_LIMIT};
use std::alloc::{AllocError, Global};
use std::marker::Model;

/// A donor's tables, open transactions, locks, binlog and drops. The rows stand on the pages of a
/// buffer, which each call is given. Between calls no frame is pinned.
#[derive(Drop)]
pub struct Transactions {
    tables: Counts,
    active: Active,
    locks: Locks,
    // with room for the commit of each open transaction
    binlog: Binlog,
    drops: Drops,
}

impl Model for Transactions {
    ghost use Rattle.std.specs.Prelude.{◌≤◌};
    ghost use Rattle.std.specs.FinMap as finite;
    ghost use Rattle.clone_plain.specs.Donor.{Donor, donor_code};
    ghost use Rattle.clone_trx.specs.Opened.{donor_of};
    ghost use Rattle.clone_trx.specs.Kept.{IsSafe};

    ghost Value = { Donor };

    ghost coded = { donor_code };

    ghost view = { λ t. donor_of t.tables t.active t.locks t.binlog.commits t.drops.list };

    ghost invariant = { λ t.
        IsSafe (donor_of t.tables t.active t.locks t.binlog.commits t.drops.list)
        × (finite.len t.active ≤ t.binlog.room) };
}

impl Transactions {
    /// No table and no transaction.
    pub(crate) fn new(alloc: Global) -> Result<Transactions, AllocError>
        ensures { IfOk result (λ transactions. transactions ≡ no_donor) }
    {
        Ok(Transactions {
            tables: Counts::new(alloc),
            active: Active::new(alloc),
            locks: Locks::new(alloc)?,
            binlog: Binlog::new(alloc),
            drops: Drops::new(alloc),
        })
    }

    /// The commits in their order.
    pub fn binlog(&self) -> &Binlog
        ensures { result.now.commits ≡ self.now.binlog }
    {
        &self.binlog
    }

    /// The drops of tables in their order, each behind as many commits as there were.
    pub fn drops(&self) -> &Drops
        ensures { result.now.list ≡ self.now.drops }
    {
        &self.drops
    }

    /// Gives the drops back. All else is let go.
    pub fn into_drops(self) -> Drops
        ensures { result.list ≡ self.drops }
    {
        let Transactions {
            tables: _,
            active: _,
            locks: _,
            binlog: _,
            drops,
        } = self;
        drops
    }

    /// The open transaction of this number, as the commit that it would be, or none where none is
    /// open.
    pub fn transaction(&self, trx: u32) -> Option<&Commit>
        ensures { option_copied result ≡ finite.get self.now.active trx }
    {
        self.active.get(trx)
    }

    /// The number that the next transaction gets: the least of which none is open, if there is one
    /// below 64.
    pub fn next_number(&self) -> Option<u32>
        ensures { result ≡ least_unused self.now.active }
    {
        self.active.least_free()
    }

    /// What holds between calls, whatever the pages are.
    pub fn laws(&self)
        ensures safe { IsSafe self.now }
    {
        let _ = &self.tables;
    }

    /// Whether a table has this number.
    pub fn has_table(&self, table: u32) -> bool
        ensures { result ≡ finite.contains_key self.now.tables table }
    {
        self.tables.get(table).is_some()
    }

    /// Refuses to drop a table where none has this number, and where a transaction holds the lock
    /// of a row of it, for the least of these.
    pub fn check_drop(&self, table: u32) -> Result<(), Cause>
        ensures { MatchResult result (λ _. drop_cause self.now table ≡ None)
            (λ cause. drop_cause self.now table ≡ Some cause) }
    {
        if self.tables.get(table).is_none() {
            return Err(Cause::NoSuchTable);
        }
        match self.locks.least_holder(table) {
            Some(trx) => Err(Cause::TableInUse { trx }),
            None => Ok(()),
        }
    }

    // The page of a row's bucket, by its number, or none where no table has this number.
    fn bucket_of(&self, table: u32, key: u64) -> Option<u32>
        ensures number { result
            ≡ option_map (λ count. key % count) (finite.get self.now.tables table) }
    {
        let buckets = self.tables.get(table)?;
        Some((key % buckets as u64) as u32)
    }

    // Refuses where another transaction holds the row's lock.
    fn check_lock(&self, trx: u32, table: u32, key: u64) -> Result<(), Cause>
        ensures { MatchResult result (λ _. row_locked self.now trx table key ≡ None)
            (λ cause. row_locked self.now trx table key ≡ Some cause) }
    {
        match self.locks.holder(table, key) {
            Some(holder) if holder != trx => Err(Cause::RowLocked { holder }),
            _ => Ok(()),
        }
    }
}

/// What an image that keeps a donor tells: its rows, once the changes of every open transaction are
/// taken back, are those that the history leaves; no undo slot has more records than fit, and each
/// is in its ranges. The space of a table has a page for each bucket, and no more pages than a
/// space may have; and each bucket has a chain that comes to its end.
pub fn kept_laws()
    ensures rows { (d : Donor) (image : Image) → IsKept d image
        → HasRows (page_of (recovered image)) (fold (history d)) }
    ensures in_range { (d : Donor) (image : Image) (s : ℕ) (slot : UndoSlot) → IsKept d image
        → s < TRANSACTION_LIMIT → undo_slot_of image s ≡ Some slot
        → AllByRecursion IsEntry slot.records }
    ensures counts { (d : Donor) (image : Image) (s : ℕ) (slot : UndoSlot) → IsKept d image
        → s < TRANSACTION_LIMIT → undo_slot_of image s ≡ Some slot
        → length slot.records ≤ capacity }
    ensures sizes { (d : Donor) (image : Image) (table count : ℕ) → IsKept d image
        → finite.get d.tables table ≡ Some count → HasSize (contents_of image) table count }
    ensures chains { (d : Donor) (image : Image) (table count bucket : ℕ) → IsKept d image
        → finite.get d.tables table ≡ Some count → bucket < count
        → HasChain (contents_of image) table bucket }
{}

/// A call that asks the disk for pages alone, and ends with a fault of it, has missed a page: the
/// buffer tells which. No frame holds it, and there is one that is set aside for it or may go.
pub fn missed_laws()
    ensures { MissedLeft }
{}
