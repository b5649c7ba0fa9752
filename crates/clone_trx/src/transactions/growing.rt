ghost use Rattle.std.specs.Prelude.{IfErr, IfOk, IsErrOf, None, length, ◌≡◌};
ghost use Rattle.clone_outside.specs.DiskCalls.{Reads};
ghost use Rattle.clone_buffer.specs.Buffered.{Buffered};
ghost use Rattle.clone_plain.specs.declared.refusal.Cause.TheVariants.{DiskFault};
ghost use Rattle.clone_plain.specs.declared.refusal.EngineRefusal.TheVariants.{Because};
ghost use Rattle.clone_trx.specs.Calls.{longer_way};
ghost use Rattle.clone_trx.specs.Holding.{HasCome, IsRefused};
ghost use Rattle.clone_trx.specs.Kept.{IsSpot, MayChange};
ghost use Rattle.clone_trx.specs.Placing.{IsPlaced, change_call};
ghost use Rattle.clone_trx.specs.Ways.{StaysStanding};

use crate::Transactions;
use crate::held::Held;
use crate::hold::{check_room, write_longer_held};
use crate::transactions::change::ChangeTarget;
use crate::walk::Spot;
use clone_buffer::Buffer;
use clone_model::Change;
use clone_outside::PageDisk;
use clone_plain::{Cause, EngineRefusal};
use clone_space::{entry_at, find, growth_records};
use clone_undo::{Before, UndoRecord};

impl Transactions {
    // Makes a new page behind the one that a walk along a full chain came to, for a change to go
    // to, and holds it.
    pub(crate) fn grow<D: PageDisk>(
        &self,
        buffer: &mut Buffer,
        trx: u32,
        change: &Change,
        spot: Spot,
        held: &mut Held,
        disk: &mut D,
    ) -> Result<ChangeTarget, EngineRefusal>
        requires cause { MayChange self.now trx change.now }
        requires spot { IsSpot self.now change.now.table change.now.key buffer.old spot }
        requires none { spot.slot ≡ None }
        requires one { length held.old ≡ 1 }
        requires comes { (first : Buffered)
            × HasCome (change_call self.now trx change.now first) held.old
            (longer_way self.now trx change.now spot.page) buffer.old }
        ensures placed { IfOk result (λ target. (first : Buffered)
            → HasCome (change_call self.now trx change.now first) held.old
            (longer_way self.now trx change.now spot.page) buffer.old
            → IsPlaced self.now trx change.now first held.new buffer.new target.entry target.is_new
            target.count) }
        ensures refused { IfErr result (λ refusal. (first : Buffered)
            → HasCome (change_call self.now trx change.now first) held.old
            (longer_way self.now trx change.now spot.page) buffer.old
            → IsRefused (change_call self.now trx change.now first) buffer.new refusal) }
        ensures reads { Reads (IsErrOf result (Because DiskFault))
            (D.state disk.old) (D.state disk.new) }
        ensures stands { StaysStanding buffer.old buffer.new
            (D.state disk.old).told (D.state disk.new).told }
    {
        self.laws();
        let at = held.hold(buffer, disk, 0, 0)?;
        let page = buffer.frame(at);
        let entry_number = find(page, change.table).unwrap_or(0);
        let entry = entry_at(page, entry_number);
        held.hold_new(buffer, change.table, entry.pages)?;
        if entry.is_full() {
            held.release(buffer);
            return Err(Cause::SpaceFull.into());
        }
        let records = growth_records(entry_number, change.table, entry.pages, spot.page);
        if let Err(refusal) = check_room(buffer, &records) {
            held.release(buffer);
            return Err(refusal);
        }
        write_longer_held(buffer, &records);
        Ok(ChangeTarget {
            entry: UndoRecord::new(change.table, entry.pages, 0, change.key, Before::Absent),
            is_new: false,
            count: self.count_of(trx),
        })
    }
}
