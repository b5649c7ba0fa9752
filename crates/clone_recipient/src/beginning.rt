ghost use Rattle.std.specs.Prelude.{◌≡◌, ◌≤◌, false, Err, IfOk, OnErr, OnOk, IsTrue};
ghost use Rattle.clone_outside.specs.Disk.{ForTold, IsBeforeOrAfter, Steps, blank};
ghost use Rattle.clone_outside.specs.DiskCalls.{Alters, Asks};
ghost use Rattle.clone_outside.specs.declared.mark.Mark.TheVariants.{InProgress};
ghost use Rattle.clone_lay.specs.Marked.{marked};
ghost use Rattle.clone_lay.specs.Sized.{AreSizes};
ghost use Rattle.clone_base.specs.declared.limits.TheConstants.{MOST_LOSSES, MOST_TASKS};
ghost use Rattle.clone_recipient.specs.Receptions.{IsNotEmpty, begun};
ghost use Rattle.clone_recipient.specs.declared.refusal.BeginCause.TheVariants as causes;

use crate::{BeginCause, Reception};
use clone_base::Counts;
use clone_lay::begin_copy;
use clone_outside::{CloneEnd, PageDisk, Refusal};
use clone_tasks::TaskTable;
use std::alloc::Global;

impl Reception {
    /// Begins a clone of so many tasks on an empty disk, by the mark of a copy that is in progress.
    /// No donor is asked. Refused where the disk holds a space or a mark, which stays as it is then,
    /// and where it fails.
    pub fn begin<R: PageDisk>(
        alloc: Global,
        disk: &mut R,
        session: u64,
        tasks: u8,
        limit: u32,
        version: u16,
    ) -> Result<Reception, BeginCause>
        requires some { 1 ≤ tasks }
        requires few { tasks ≤ MOST_TASKS }
        requires limit { limit ≤ MOST_LOSSES }
        requires first { 1 ≤ version }
        requires second { version ≤ 2 }
        ensures begun { IfOk result (λ r. r ≡ begun session tasks limit version) }
        ensures empty { OnOk result (ForTold (R.state disk.old).told (λ m. m ≡ blank)) }
        ensures marked { OnOk result (Steps (R.state disk.old).told (R.state disk.new).told
            (marked (InProgress session))) }
        ensures sizes { IfOk result (λ r. ForTold (R.state disk.new).told (AreSizes r.sizes)) }
        ensures not_empty { result ≡ Err causes.NotEmpty
            → ForTold (R.state disk.old).told IsNotEmpty }
        ensures untouched { result ≡ Err causes.NotEmpty
            → (R.state disk.new).told ≡ (R.state disk.old).told }
        ensures partial { OnErr result (IsBeforeOrAfter (R.state disk.old).told
            (R.state disk.new).told (marked (InProgress session))) }
        ensures works { Alters (result ≡ Err causes.DiskFault)
            (R.state disk.old) (R.state disk.new) }
    {
        if !is_empty(alloc, disk)? {
            return Err(BeginCause::NotEmpty);
        }
        begin_copy(disk, session)?;
        Ok(Reception {
            table: TaskTable::new(alloc, session, tasks, limit, version),
            sizes: Counts::new(alloc),
            files: Vec::new(alloc),
            pages: 0,
            end: CloneEnd {
                session,
                checkpoint: 0,
                lsn: 0,
                position: 0,
            },
            synced: false,
            recovered: false,
        })
    }
}

// Whether a disk holds neither a space nor a mark.
fn is_empty<R: PageDisk>(alloc: Global, disk: &mut R) -> Result<bool, Refusal>
    ensures empty { IfOk result
        (λ empty. IsTrue empty → ForTold (R.state disk.old).told (λ m. m ≡ blank)) }
    ensures not_empty { IfOk result
        (λ empty. empty ≡ false → ForTold (R.state disk.old).told IsNotEmpty) }
    ensures asks { Asks (R.state disk.old) (R.state disk.new) result }
{
    if !disk.spaces(alloc)?.is_empty() {
        return Ok(false);
    }
    Ok(disk.read_mark()?.is_none())
}
