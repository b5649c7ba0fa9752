ghost use Rattle.std.specs.Prelude.{Err, IsErrOf, IsTrue, None, OnErr, OnOk, ◌≡◌, ◌≤◌};
ghost use Rattle.clone_outside.specs.Disk.{IsBeforeOrAfter, Steps, with_created};
ghost use Rattle.clone_outside.specs.DiskCalls.{Counts};
ghost use Rattle.clone_outside.specs.Stops.{Notes};
ghost use Rattle.clone_outside.specs.Stops as change;
ghost use Rattle.clone_model.specs.declared.line.TheConstants.{HIGHEST_TABLE, MOST_BUCKETS};
ghost use Rattle.clone_space.specs.Records.{records_of_create};
ghost use Rattle.clone_buffer.specs.Buffered.{image_of};
ghost use Rattle.clone_plain.specs.Causes.{create_cause};
ghost use Rattle.clone_plain.specs.Effects.{created};
ghost use Rattle.clone_plain.specs.declared.refusal.Cause.TheVariants.{DiskFault};
ghost use Rattle.clone_plain.specs.declared.refusal.EngineRefusal.TheVariants.{Because};
ghost use Rattle.clone_trx.specs.Calls.{create_way, number_of_free_entry, system_page};
ghost use Rattle.clone_trx.specs.Ways.{Answers, Carries, Makes, StaysCreating, page_in};
ghost use Rattle.clone_trx.specs.Kept.{Has, HasNoFresh, Keeps};
ghost use Rattle.clone_trx.specs.Sound.{IsKept};
ghost use Rattle.std.specs.FinMap as finite;

use crate::Transactions;
use crate::hold::{check_room, hold, refused_by, release, write_space_held};
use clone_buffer::Buffer;
use clone_model::{BucketCount, TableNumber};
use clone_outside::PageDisk;
use clone_plain::{Cause, EngineRefusal, TABLE_LIMIT};
use clone_space::{create_records, least_free};

impl Transactions {
    /// Makes an empty table, which takes the first free entry of the dictionary. Refused where a
    /// table has this number, where 62 tables are there, where there is no frame for the system
    /// page, where the log has no room, and where the disk fails; then a file of the table's number
    /// may stay.
    pub fn create<D: PageDisk>(
        &mut self,
        buffer: &mut Buffer,
        table: TableNumber,
        buckets: BucketCount,
        disk: &mut D,
    ) -> Result<(), EngineRefusal>
        requires kept { Keeps self.old buffer.old }
        ensures answer { Answers (create_cause self.old table) (create_way table buckets)
            self.old self.new buffer.old buffer.new result
            (λ _. self.new ≡ created table buckets self.old) }
        ensures kept { Keeps self.new buffer.new }
        ensures counts { Counts (IsErrOf result (Because DiskFault))
            (D.state disk.old) (D.state disk.new) }
        ensures stops { Notes (D.state disk.old).stops (D.state disk.new).stops
            (change.Create table buckets) }
        ensures made { OnOk result (Steps (D.state disk.old).told (D.state disk.new).told
            (λ m. with_created m table buckets)) }
        ensures left { result ≡ Err (Because DiskFault)
            → IsBeforeOrAfter (D.state disk.old).told (D.state disk.new).told
            (λ m. with_created m table buckets) }
        ensures same { (result ≡ Err (Because DiskFault) → ⊥)
            → OnErr result ((D.state disk.new).told ≡ (D.state disk.old).told) }
        ensures stands { StaysCreating table buckets result buffer.old buffer.new
            (D.state disk.old).told (D.state disk.new).told }
    {
        let (table, buckets) = (table.get(), buckets.get());
        if self.tables.get(table).is_some() {
            return Err(Cause::TableExists.into());
        }
        if self.tables.len() == TABLE_LIMIT {
            return Err(Cause::TooManyTables.into());
        }
        let at = hold(buffer, disk, 0, 0)?;
        buffer.laws();
        let created = self.create_held(buffer, table, buckets, at, disk);
        release(buffer, at);
        created
    }

    // Makes a table, with the system page held. There is no cause of the plain donor against it.
    fn create_held<D: PageDisk>(
        &mut self,
        buffer: &mut Buffer,
        table: u32,
        buckets: u32,
        at: u32,
        disk: &mut D,
    ) -> Result<(), EngineRefusal>
        requires cause { create_cause self.old table ≡ None }
        requires table { (1 ≤ table) × (table ≤ HIGHEST_TABLE) }
        requires buckets { (1 ≤ buckets) × (buckets ≤ MOST_BUCKETS) }
        requires kept { IsTrue buffer.old.right → IsKept self.old (image_of buffer.old) }
        requires held { Has (system_page 0) at buffer.old.pool.frames }
        requires fresh { HasNoFresh table buffer.old.pool.frames }
        ensures written { Makes
            (records_of_create (number_of_free_entry (page_in at buffer.old)) table buckets)
            buffer.old buffer.new result }
        ensures donor { Carries self.old self.new result
            (λ _. self.new ≡ created table buckets self.old) }
        ensures kept { IsTrue buffer.new.right → IsKept self.new (image_of buffer.new) }
        ensures counts { Counts (IsErrOf result (Because DiskFault))
            (D.state disk.old) (D.state disk.new) }
        ensures stops { Notes (D.state disk.old).stops (D.state disk.new).stops
            (change.Create table buckets) }
        ensures made { OnOk result (Steps (D.state disk.old).told (D.state disk.new).told
            (λ m. with_created m table buckets)) }
        ensures left { result ≡ Err (Because DiskFault)
            → IsBeforeOrAfter (D.state disk.old).told (D.state disk.new).told
            (λ m. with_created m table buckets) }
        ensures same { (result ≡ Err (Because DiskFault) → ⊥)
            → OnErr result ((D.state disk.new).told ≡ (D.state disk.old).told) }
        ensures stands { StaysCreating table buckets result buffer.old buffer.new
            (D.state disk.old).told (D.state disk.new).told }
    {
        buffer.laws();
        let entry_number = least_free(buffer.frame(at)).unwrap_or(0);
        let records = create_records(entry_number, table, buckets);
        check_room(buffer, &records)?;
        self.tables.insert(table, buckets)?;
        if let Err(refusal) = disk.create(table, buckets) {
            self.tables.remove(table);
            return Err(refused_by(refusal));
        }
        write_space_held(buffer, &records);
        Ok(())
    }
}
