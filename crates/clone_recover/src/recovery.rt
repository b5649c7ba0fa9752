ghost use Rattle.std.specs.Prelude.{◌≡◌, ℕ, IfOk, IfErr, OnOk, IsErrOf};
ghost use Rattle.clone_outside.specs.Disk.{ForTold, Steps, with_mark};
ghost use Rattle.clone_outside.specs.DiskCalls.{Alters, Reads, Works};
ghost use Rattle.clone_outside.specs.Mark.{mark_bytes, IsEnd};
ghost use Rattle.clone_outside.specs.declared.mark.Mark.TheVariants as mark;
ghost use Rattle.clone_recover.specs.Written.{written_out};
ghost use Rattle.clone_recover.specs.Refusals.{IsOfDisk};
ghost use Rattle.clone_recover.specs.Restores.{Answers, HasMark, HasRecovered, IsCause, IsMarkOf, ForStep, RestoresOn, UndoesOn, DamagedOn, numbers_of};
ghost use Rattle.clone_recover.specs.declared.refusal.Why.{Why};
ghost use Rattle.clone_recover.specs.declared.refusal.RecoverRefusal.TheVariants.{Damaged};

use crate::RecoverRefusal;
use crate::chains::check_chains;
use crate::dictionary::check_dictionary;
use crate::redo::{check_log, redo};
use crate::rollback::take_back_open;
use crate::writing::write_out;
use clone_outside::{CloneEnd, Mark, PageDisk, Refusal};
use clone_overlay::Overlay;
use std::alloc::Global;

/// What a recovered disk has: all commits up to an LSN, and how many these are.
#[derive(Clone, Copy, Debug, PartialEq, Eq)]
pub struct Recovered {
    /// Where the redo of the clone ends.
    pub lsn: u64,
    /// How many commits there are.
    pub position: u64,
}

/// Recovers a clone on a disk: its redo is carried out over the pages that are there, the changes
/// of each transaction that was open are taken back, the chains of all tables are tested, and the
/// disk gets the recovered mark. On a recovered disk nothing is written. `Incomplete` comes exactly
/// where no mark stands, or the in-progress mark or a staged one.
pub fn recover<R: PageDisk>(alloc: Global, disk: &mut R) -> Result<Recovered, RecoverRefusal>
    ensures ok { IfOk result (λ numbers. ForStep (R.state disk.old).told (R.state disk.new).told
        (λ m n. Answers m n numbers)) }
    ensures marked { OnOk result (ForTold (R.state disk.new).told HasRecovered) }
    ensures cause { IfErr result
        (λ refusal. ForTold (R.state disk.old).told (λ m. IsCause m refusal)) }
    ensures works { Alters (IsErrOf result RecoverRefusal.DiskFault)
        (R.state disk.old) (R.state disk.new) }
    ensures incomplete { IsErrOf result RecoverRefusal.Incomplete
        → (R.state disk.new).told ≡ (R.state disk.old).told }
    ensures damaged { (space page : ℕ) (why : Why) → IsErrOf result (Damaged space page why)
        → (R.state disk.new).told ≡ (R.state disk.old).told }
{
    match mark_of(disk)? {
        Some(Mark::Recovered(end)) => Ok(numbers_of(end)),
        Some(Mark::Complete(end)) => {
            recover_from(alloc, disk, &end)?;
            Ok(numbers_of(end))
        }
        Some(Mark::InProgress { .. }) => Err(RecoverRefusal::Incomplete),
        Some(Mark::Ending(_)) => Err(RecoverRefusal::Incomplete),
        Some(Mark::Staged(_)) => Err(RecoverRefusal::Incomplete),
        None => Err(RecoverRefusal::Incomplete),
    }
}

fn numbers_of(end: CloneEnd) -> Recovered
    ensures numbers { result ≡ numbers_of end }
    ensures ranges { IsEnd end }
{
    Recovered {
        lsn: end.lsn,
        position: end.position,
    }
}

/// The mark of a disk, if it has one.
pub fn mark_of<R: PageDisk>(disk: &mut R) -> Result<Option<Mark>, RecoverRefusal>
    ensures mark { IfOk result (λ mark. ForTold (R.state disk.old).told (λ m. IsMarkOf m mark)) }
    ensures cause { IfErr result IsOfDisk }
    ensures reads { Reads (IsErrOf result RecoverRefusal.DiskFault)
        (R.state disk.old) (R.state disk.new) }
{
    match disk.read_mark()? {
        Some(bytes) => Ok(Mark::from_bytes(&bytes)),
        None => Ok(None),
    }
}

// Recovers a clone that is complete.
fn recover_from<R: PageDisk>(
    alloc: Global,
    disk: &mut R,
    end: &CloneEnd,
) -> Result<(), RecoverRefusal>
    ensures ok { OnOk result (RestoresOn (R.state disk.old).told (R.state disk.new).told end.now) }
    ensures marked { OnOk result
        (ForTold (R.state disk.new).told (λ m. HasMark m (mark.Recovered end.now))) }
    ensures cause { IfErr result (DamagedOn (R.state disk.old).told end.now) }
    ensures known { IsErrOf result RecoverRefusal.Incomplete → ⊥ }
    ensures works { Alters (IsErrOf result RecoverRefusal.DiskFault)
        (R.state disk.old) (R.state disk.new) }
    ensures damaged { (space page : ℕ) (why : Why) → IsErrOf result (Damaged space page why)
        → (R.state disk.new).told ≡ (R.state disk.old).told }
{
    let overlay = recovered_pages(alloc, disk, end)?;
    Ok(write_recovered(alloc, disk, &overlay, end)?)
}

// Writes the pages and the recovered mark.
fn write_recovered<R: PageDisk>(
    alloc: Global,
    disk: &mut R,
    overlay: &Overlay,
    end: &CloneEnd,
) -> Result<(), Refusal>
    ensures ok { OnOk result (Steps (R.state disk.old).told (R.state disk.new).told
        (λ m. with_mark (written_out overlay.now m) (mark_bytes (mark.Recovered end.now)))) }
    ensures works { Works (R.state disk.old) (R.state disk.new) result }
{
    write_out(alloc, disk, overlay)?;
    disk.sync()?;
    disk.write_mark(&Mark::Recovered(*end).to_bytes())?;
    disk.sync()
}

// The recovered pages of a clone that is complete. Nothing is written.
fn recovered_pages<R: PageDisk>(
    alloc: Global,
    disk: &mut R,
    end: &CloneEnd,
) -> Result<Overlay, RecoverRefusal>
    ensures ok { IfOk result (UndoesOn (R.state disk.old).told end.now) }
    ensures cause { IfErr result (DamagedOn (R.state disk.old).told end.now) }
    ensures known { IsErrOf result RecoverRefusal.Incomplete → ⊥ }
    ensures reads { Reads (IsErrOf result RecoverRefusal.DiskFault)
        (R.state disk.old) (R.state disk.new) }
{
    check_log(disk, end)?;
    let mut overlay = Overlay::open(alloc, disk)?;
    redo(alloc, disk, &mut overlay, end)?;
    check_dictionary(disk, &mut overlay)?;
    take_back_open(disk, &mut overlay)?;
    check_chains(alloc, disk, &mut overlay)?;
    Ok(overlay)
}
