ghost use Rattle.std.specs.Prelude.{◌≡◌, ℕ, IfOk, IfErr, IsErrOf};
ghost use Rattle.std.specs.String.{string_bytes};
ghost use Rattle.clone_outside.specs.Disk.{ForTold};
ghost use Rattle.clone_outside.specs.DiskCalls.{Alters};
ghost use Rattle.clone_model.specs.History.{Rows, rows_in};
ghost use Rattle.clone_recover.specs.Restores.{ForStep, IsCause};
ghost use Rattle.clone_recover.specs.declared.refusal.RecoverRefusal.TheVariants.{Damaged};
ghost use Rattle.clone_recover.specs.declared.refusal.Why.{Why};
ghost use Rattle.clone_dump.specs.Shown.{SaysRecovered, SaysRows, ShowsRecovered};

use crate::texts::{recovered_line, rows_lines};
use clone_model::Value;
use clone_outside::PageDisk;
use clone_recover::{RecoverRefusal, open_rows, recover};
use std::alloc::Global;

/// Recovers a disk, and gives the line that says up to where. Where it isn't complete, or damaged,
/// nothing of it has changed.
pub fn recover_clone<R: PageDisk>(alloc: Global, disk: &mut R) -> Result<String, RecoverRefusal>
    ensures says { IfOk result (λ text. SaysRecovered (R.state disk.old).told
        (R.state disk.new).told (string_bytes text)) }
    ensures cause { IfErr result
        (λ refusal. ForTold (R.state disk.old).told (λ m. IsCause m refusal)) }
    ensures works { Alters (IsErrOf result RecoverRefusal.DiskFault)
        (R.state disk.old) (R.state disk.new) }
    ensures incomplete { IsErrOf result RecoverRefusal.Incomplete
        → (R.state disk.new).told ≡ (R.state disk.old).told }
    ensures damaged { (space page : ℕ) (why : Why) → IsErrOf result (Damaged space page why)
        → (R.state disk.new).told ≡ (R.state disk.old).told }
{
    let numbers = recover(alloc, disk)?;
    Ok(recovered_line(alloc, numbers)?)
}

/// Recovers a disk, and gives its rows, each on a line, and then their number. Where it isn't
/// complete, or damaged, nothing of it has changed.
pub fn dump<R: PageDisk>(alloc: Global, disk: &mut R) -> Result<String, RecoverRefusal>
    ensures says { IfOk result (λ text. SaysRows (R.state disk.old).told
        (R.state disk.new).told (string_bytes text)) }
    ensures cause { IfErr result
        (λ refusal. ForTold (R.state disk.old).told (λ m. IsCause m refusal)) }
    ensures works { Alters (IsErrOf result RecoverRefusal.DiskFault)
        (R.state disk.old) (R.state disk.new) }
    ensures incomplete { IsErrOf result RecoverRefusal.Incomplete
        → (R.state disk.new).told ≡ (R.state disk.old).told }
    ensures damaged { (space page : ℕ) (why : Why) → IsErrOf result (Damaged space page why)
        → (R.state disk.new).told ≡ (R.state disk.old).told }
{
    let rows = recovered_rows(alloc, disk)?;
    Ok(rows_lines(alloc, &rows)?)
}

/// Recovers a disk, and reads its rows. Where it isn't complete, or damaged, nothing of it has
/// changed.
pub fn recovered_rows<R: PageDisk>(
    alloc: Global,
    disk: &mut R,
) -> Result<Vec<(u32, u64, Value)>, RecoverRefusal>
    ensures rows { IfOk result (λ list. ForStep (R.state disk.old).told (R.state disk.new).told
        (λ m n. ShowsRecovered m n list.items)) }
    ensures ascending { IfOk result (λ list. (rows : Rows) × (list.items ≡ rows_in rows)) }
    ensures cause { IfErr result
        (λ refusal. ForTold (R.state disk.old).told (λ m. IsCause m refusal)) }
    ensures works { Alters (IsErrOf result RecoverRefusal.DiskFault)
        (R.state disk.old) (R.state disk.new) }
    ensures incomplete { IsErrOf result RecoverRefusal.Incomplete
        → (R.state disk.new).told ≡ (R.state disk.old).told }
    ensures damaged { (space page : ℕ) (why : Why) → IsErrOf result (Damaged space page why)
        → (R.state disk.new).told ≡ (R.state disk.old).told }
{
    recover(alloc, disk)?;
    open_rows(alloc, disk)
}
