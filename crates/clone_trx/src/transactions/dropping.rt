ghost use Rattle.std.specs.Prelude.{Err, IsErrOf, IsTrue, None, OnErr, OnOk, ◌<◌, ◌≡◌};
ghost use Rattle.clone_outside.specs.Disk.{IsBeforeOrAfter, Steps, with_removed};
ghost use Rattle.clone_outside.specs.DiskCalls.{Counts};
ghost use Rattle.clone_outside.specs.Stops.{Notes};
ghost use Rattle.clone_outside.specs.Stops as change;
ghost use Rattle.clone_page.specs.Dictionary.{entry_count};
ghost use Rattle.clone_contents.specs.Contents.{contents_of};
ghost use Rattle.clone_buffer.specs.Buffered.{image_of};
ghost use Rattle.clone_buffer.specs.Dropping.{AreUnpinned};
ghost use Rattle.clone_plain.specs.Causes.{drop_cause};
ghost use Rattle.clone_plain.specs.declared.refusal.Cause.TheVariants.{DiskFault};
ghost use Rattle.clone_plain.specs.declared.refusal.EngineRefusal.TheVariants.{Because};
ghost use Rattle.clone_trx.specs.Calls.{drop_at, drop_way, system_page};
ghost use Rattle.clone_trx.specs.Ways.{CarriesDrop, Goes, StaysOutside, StaysStanding};
ghost use Rattle.clone_trx.specs.Kept.{IsHeld, Keeps, TellsPages};
ghost use Rattle.clone_trx.specs.Sound.{IsKept};

use crate::Transactions;
use crate::hold::{check_room, hold, release, write_drop_held};
use clone_buffer::Buffer;
use clone_model::MOST_PAGES;
use clone_outside::PageDisk;
use clone_plain::{Cause, EngineRefusal};
use clone_space::{drop_records, entry_at, find};

impl Transactions {
    /// Drops a table: its pages are given up, its entry is free, and its file goes. There is no
    /// cause of `check_drop` against it.
    ///
    /// Refused where there is no frame for the system page, where the disk fails to read it, and
    /// where the log has no room; then the table stays. Where the disk fails to remove the file,
    /// the table is gone all the same.
    pub fn drop_table<D: PageDisk>(
        &mut self,
        buffer: &mut Buffer,
        table: u32,
        disk: &mut D,
    ) -> Result<(), EngineRefusal>
        requires cause { drop_cause self.old table ≡ None }
        requires kept { Keeps self.old buffer.old }
        ensures way { Goes (drop_way table) buffer.old buffer.new result }
        ensures donor { CarriesDrop table self.old self.new buffer.old buffer.new result }
        ensures kept { Keeps self.new buffer.new }
        ensures counts { Counts (IsErrOf result (Because DiskFault))
            (D.state disk.old) (D.state disk.new) }
        ensures stops { Notes (D.state disk.old).stops (D.state disk.new).stops
            (change.Remove table) }
        ensures gone { OnOk result
            (Steps (D.state disk.old).told (D.state disk.new).told (λ m. with_removed m table)) }
        ensures removed { IsBeforeOrAfter (D.state disk.old).told (D.state disk.new).told
            (λ m. with_removed m table) }
        ensures same { buffer.new.log ≡ buffer.old.log
            → (D.state disk.new).told ≡ (D.state disk.old).told }
        ensures stays { buffer.new.log ≡ buffer.old.log → StaysStanding buffer.old buffer.new
            (D.state disk.old).told (D.state disk.new).told }
        ensures stands { StaysOutside table buffer.old buffer.new
            (D.state disk.old).told (D.state disk.new).told }
    {
        self.laws();
        let at = hold(buffer, disk, 0, 0)?;
        buffer.laws();
        let page = buffer.frame(at);
        let entry_number = find(page, table).unwrap_or(0);
        let pages = entry_at(page, entry_number).pages;
        let dropped = self.drop_held(buffer, table, entry_number, pages, disk);
        release(buffer, at);
        dropped
    }

    // Drops a table by its entry in the dictionary, with the system page held. The room of the drop
    // is made before anything changes, and the file goes last.
    fn drop_held<D: PageDisk>(
        &mut self,
        buffer: &mut Buffer,
        table: u32,
        entry_number: usize,
        pages: u32,
        disk: &mut D,
    ) -> Result<(), EngineRefusal>
        requires cause { drop_cause self.old table ≡ None }
        requires entry_number { entry_number < entry_count }
        requires tells { IsTrue buffer.old.right
            → TellsPages (contents_of (image_of buffer.old)) table entry_number pages }
        requires kept { IsTrue buffer.old.right → IsKept self.old (image_of buffer.old) }
        requires held { IsHeld (system_page 0) buffer.old.pool.frames }
        requires unpinned { AreUnpinned table buffer.old.pool.frames }
        ensures way { Goes (drop_at table entry_number pages) buffer.old buffer.new result }
        ensures donor { CarriesDrop table self.old self.new buffer.old buffer.new result }
        ensures kept { IsTrue buffer.new.right → IsKept self.new (image_of buffer.new) }
        ensures counts { Counts (IsErrOf result (Because DiskFault))
            (D.state disk.old) (D.state disk.new) }
        ensures stops { Notes (D.state disk.old).stops (D.state disk.new).stops
            (change.Remove table) }
        ensures gone { OnOk result
            (Steps (D.state disk.old).told (D.state disk.new).told (λ m. with_removed m table)) }
        ensures removed { IsBeforeOrAfter (D.state disk.old).told (D.state disk.new).told
            (λ m. with_removed m table) }
        ensures same { buffer.new.log ≡ buffer.old.log
            → (D.state disk.new).told ≡ (D.state disk.old).told }
        ensures stays { buffer.new.log ≡ buffer.old.log → StaysStanding buffer.old buffer.new
            (D.state disk.old).told (D.state disk.new).told }
        ensures stands { StaysOutside table buffer.old buffer.new
            (D.state disk.old).told (D.state disk.new).told }
    {
        let records = drop_records(entry_number, table);
        check_room(buffer, &records)?;
        self.drops.reserve(1)?;
        write_drop_held(buffer, table, pages.min(MOST_PAGES), &records);
        buffer.laws();
        self.tables.remove(table);
        self.drops.push_within(self.binlog.len() as u64, table);
        remove_file(disk, table)
    }
}

// The disk removes the file of a table that was dropped.
fn remove_file<D: PageDisk>(disk: &mut D, table: u32) -> Result<(), EngineRefusal>
    ensures refused { OnErr result (result ≡ Err (Because DiskFault)) }
    ensures counts { Counts (IsErrOf result (Because DiskFault))
        (D.state disk.old) (D.state disk.new) }
    ensures stops { Notes (D.state disk.old).stops (D.state disk.new).stops
        (change.Remove table) }
    ensures gone { OnOk result
        (Steps (D.state disk.old).told (D.state disk.new).told (λ m. with_removed m table)) }
    ensures removed { IsBeforeOrAfter (D.state disk.old).told (D.state disk.new).told
        (λ m. with_removed m table) }
{
    match disk.remove(table) {
        Ok(()) => Ok(()),
        Err(_) => Err(Cause::DiskFault.into()),
    }
}
