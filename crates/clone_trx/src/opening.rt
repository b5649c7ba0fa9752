ghost use Rattle.std.specs.Prelude.{◌≡◌, ◌<◌, ◌≤◌, ◌∷◌, [], IfOk, OnOk, IsErrOf, IsTrue, is_some, length};
ghost use Rattle.std.specs.FinMap as finite;
ghost use Rattle.clone_outside.specs.Disk.{ForTold, Steps, with_created};
ghost use Rattle.clone_outside.specs.DiskCalls.{Alters};
ghost use Rattle.clone_mtr.specs.Spelling.{spelling};
ghost use Rattle.clone_contents.specs.Records.{opening_records, system_size};
ghost use Rattle.clone_image.specs.Replay.{first_lsn};
ghost use Rattle.clone_buffer.specs.OnePage.{at_rest};
ghost use Rattle.clone_buffer.specs.Keeping.{Stands};
ghost use Rattle.clone_plain.specs.Donor.{no_donor};
ghost use Rattle.clone_trx.specs.Kept.{Keeps};

use crate::Transactions;
use crate::hold::write_space_held;
use crate::records::opening;
use clone_buffer::Buffer;
use clone_contents::SYSTEM_PAGES;
use clone_outside::{PageDisk, Refusal};
use std::alloc::{AllocError, Global};

/// Why a donor isn't opened.
#[derive(Clone, Copy, Debug, PartialEq, Eq)]
pub enum OpenRefusal {
    /// The disk failed.
    DiskFault,
    /// There was no memory.
    NoMemory,
}

impl From<AllocError> for OpenRefusal {
    ghost use Rattle.std.specs.Prelude.{◌≡◌};
    ghost use Rattle.clone_trx.specs.declared.opening.OpenRefusal.TheVariants.{NoMemory};

    ghost from_gives = { λ _ e. e ≡ NoMemory };

    fn from(_refused: AllocError) -> OpenRefusal {
        OpenRefusal::NoMemory
    }
}

/// Transactions over a buffer of so many frames and a ring of so many bytes. The disk gets the
/// system space, and the log has the mini-transaction that makes it and its first page.
pub fn open<D: PageDisk>(
    alloc: Global,
    frames: u32,
    ring: u64,
    disk: &mut D,
) -> Result<(Transactions, Buffer), OpenRefusal>
    requires frames { 0 < frames }
    requires ring { length (spelling opening_records) ≤ ring }
    ensures donor { IfOk result (λ opened. opened.0 ≡ no_donor) }
    ensures log { IfOk result (λ opened. opened.1.log ≡ opening_records ∷ []) }
    ensures right { IfOk result (λ opened. IsTrue opened.1.right) }
    ensures kept { IfOk result (λ opened. Keeps opened.0 opened.1) }
    ensures works { Alters (IsErrOf result OpenRefusal.DiskFault)
        (D.state disk.old) (D.state disk.new) }
    ensures made { OnOk result
        (Steps (D.state disk.old).told (D.state disk.new).told
        (λ m. with_created m 0 system_size)) }
    ensures ring { IfOk result (λ opened. opened.1.ring.floor ≡ first_lsn) }
    ensures size { IfOk result (λ opened. opened.1.ring.size ≡ ring) }
    ensures pool { IfOk result (λ opened. length opened.1.pool.frames ≡ frames) }
    ensures stands { ForTold (D.state disk.old).told (λ m. m.spaces ≡ finite.empty)
        → IfOk result (λ opened. Stands opened.1 at_rest (D.state disk.new).told) }
{
    let mut buffer = Buffer::new(alloc, frames, ring)?;
    let transactions = Transactions::new(alloc)?;
    match disk.create(0, SYSTEM_PAGES) {
        Ok(()) => {}
        Err(Refusal::Fault) => return Err(OpenRefusal::DiskFault),
        Err(Refusal::NoMemory) => return Err(OpenRefusal::NoMemory),
    }
    let Ok(at) = buffer.fresh(0, 0) else {
        unreachable!();
    };
    buffer.laws();
    write_space_held(&mut buffer, &opening());
    buffer.unpin(at);
    Ok((transactions, buffer))
}
