ghost use Rattle.std.specs.Prelude.{Err, IsErrOf, IsTrue, ◌≡◌, ◌≢◌};
ghost use Rattle.clone_outside.specs.DiskCalls.{Reads};
ghost use Rattle.clone_plain.specs.Causes.{get_cause};
ghost use Rattle.clone_plain.specs.Effects.{Gets};
ghost use Rattle.clone_plain.specs.declared.refusal.Cause.TheVariants.{DiskFault};
ghost use Rattle.clone_plain.specs.declared.refusal.EngineRefusal.TheVariants.{Because, NoMemory};
ghost use Rattle.clone_trx.specs.Calls.{get_way};
ghost use Rattle.clone_trx.specs.Ways.{Answers, StaysStanding};
ghost use Rattle.clone_trx.specs.Kept.{Keeps};

use crate::Transactions;
use crate::held::Held;
use crate::slot::value_on;
use crate::walk::Course;
use clone_buffer::Buffer;
use clone_model::Value;
use clone_outside::PageDisk;
use clone_plain::{Cause, EngineRefusal};

impl Transactions {
    /// The row's value after the history and then the transaction's own changes. No lock is taken.
    /// Refused where no open transaction or no table has this number, where another transaction
    /// holds the row's lock, and where there is no frame for a page.
    pub fn get<D: PageDisk>(
        &self,
        buffer: &mut Buffer,
        trx: u32,
        table: u32,
        key: u64,
        disk: &mut D,
    ) -> Result<Option<Value>, EngineRefusal>
        requires kept { Keeps self.now buffer.old }
        ensures answer { Answers (get_cause self.now trx table key) (get_way self.now table key)
            self.now self.now buffer.old buffer.new result
            (λ value. IsTrue buffer.new.right → Gets self.now trx table key value) }
        ensures memory { result ≢ Err NoMemory }
        ensures kept { Keeps self.now buffer.new }
        ensures reads { Reads (IsErrOf result (Because DiskFault))
            (D.state disk.old) (D.state disk.new) }
        ensures stands { StaysStanding buffer.old buffer.new
            (D.state disk.old).told (D.state disk.new).told }
    {
        if self.active.get(trx).is_none() {
            return Err(Cause::NoSuchTrx.into());
        }
        let Some(bucket) = self.bucket_of(table, key) else {
            return Err(Cause::NoSuchTable.into());
        };
        self.check_lock(trx, table, key)?;
        self.laws();
        let course = Course {
            table,
            first: bucket,
            key,
            for_room: false,
        };
        let mut held = Held::new();
        let spot = held.walk(buffer, disk, course)?;
        buffer.laws();
        let value = value_on(buffer.frame(spot.at), spot.slot);
        held.release(buffer);
        Ok(value)
    }
}
