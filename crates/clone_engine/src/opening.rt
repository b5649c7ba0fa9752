ghost use Rattle.std.specs.Prelude.{◌≡◌, ◌≤◌, ◌∷◌, [], Err, IfOk, IsTrue, None, OnOk, false, length};
ghost use Rattle.std.specs.FinMap as finite;
ghost use Rattle.clone_outside.specs.Disk.{ForTold, Steps, blank, with_created};
ghost use Rattle.clone_outside.specs.DiskCalls.{Alters, Asks};
ghost use Rattle.clone_model.specs.Config.{IsConfig};
ghost use Rattle.clone_image.specs.Replay.{first_lsn};
ghost use Rattle.clone_contents.specs.Records.{opening_records, system_size};
ghost use Rattle.clone_buffer.specs.Keeping.{Stands};
ghost use Rattle.clone_buffer.specs.OnePage.{at_rest};
ghost use Rattle.clone_plain.specs.Donor.{no_donor};
ghost use Rattle.clone_trx.specs.Kept.{Keeps};
ghost use Rattle.clone_engine.specs.Donor.{IsDonor};
ghost use Rattle.clone_engine.specs.Opened.{IsNotEmpty, IsOpened};
ghost use Rattle.clone_engine.specs.Over.{over};
ghost use Rattle.clone_engine.specs.Taken.{IsTaken, nothing};
ghost use Rattle.clone_engine.specs.declared.opening.OpenCause.TheVariants as causes;

use crate::Engine;
use clone_buffer::Buffer;
use clone_contents::SYSTEM_PAGES;
use clone_flush::Flusher;
use clone_model::Config;
use clone_outside::{PageDisk, Refusal};
use clone_session::Cloning;
use clone_trx::{OpenRefusal as OpenRefused, Transactions, open};
use std::alloc::{AllocError, Global};

/// Why an engine isn't opened.
#[derive(Clone, Copy, Debug, PartialEq, Eq)]
pub enum OpenCause {
    /// The disk holds a space or a mark.
    NotEmpty,
    /// The disk failed.
    DiskFault,
    /// There was no memory.
    NoMemory,
}

/// An engine isn't opened, and the disk is given back.
pub struct OpenRefusal<D> {
    /// Why.
    pub cause: OpenCause,
    /// The disk.
    pub disk: D,
}

impl Engine {
    /// An engine over an empty disk, which gives no clone yet. Opening makes the system space, and
    /// leaves the log's end at 8,213 and the checkpoint at 8,192. Refused where the disk holds a
    /// space or a mark, and where it fails.
    pub fn open<D: PageDisk>(
        alloc: Global,
        config: Config,
        disk: &mut D,
    ) -> Result<Engine, OpenCause>
        requires config { IsConfig config }
        ensures donor { IfOk result (λ e. IsDonor (over e (D.state disk.new))) }
        ensures opened { IfOk result (λ e. IsOpened config (over e (D.state disk.new)).engine) }
        ensures checkpoint { IfOk result (λ e. e.flusher.checkpoint ≡ first_lsn) }
        ensures idle { IfOk result (λ e. e.cloning.session ≡ None) }
        ensures stop { IfOk result (λ e. e.cloning.stop ≡ None) }
        ensures taken { IfOk result (λ e. IsTaken (over e (D.state disk.new)) nothing) }
        ensures empty { OnOk result (ForTold (D.state disk.old).told (λ m. m ≡ blank)) }
        ensures not_empty { result ≡ Err causes.NotEmpty
            → ForTold (D.state disk.old).told IsNotEmpty }
        ensures works { Alters (result ≡ Err causes.DiskFault)
            (D.state disk.old) (D.state disk.new) }
    {
        let ring = config.ring;
        let (transactions, buffer, flusher) = parts(alloc, disk, config)?;
        buffer.laws();
        Ok(Engine {
            transactions,
            buffer,
            flusher,
            cloning: Cloning::new(alloc, ring),
        })
    }
}

// What an engine over an empty disk begins with.
fn parts<D: PageDisk>(
    alloc: Global,
    disk: &mut D,
    config: Config,
) -> Result<(Transactions, Buffer, Flusher), OpenCause>
    requires config { IsConfig config }
    ensures donor { IfOk result (λ parts. parts.0 ≡ no_donor) }
    ensures log { IfOk result (λ parts. parts.1.log ≡ opening_records ∷ []) }
    ensures frames { IfOk result (λ parts. length parts.1.pool.frames ≡ config.pool) }
    ensures kept { IfOk result (λ parts. Keeps parts.0 parts.1) }
    ensures writes { IfOk result (λ parts. parts.2.writes ≡ finite.empty) }
    ensures checkpoint { IfOk result (λ parts. parts.2.checkpoint ≡ first_lsn) }
    ensures files { IfOk result (λ parts. parts.2.files
        ≡ finite.insert finite.empty 0 system_size) }
    ensures floor { IfOk result (λ parts. parts.1.ring.floor ≡ first_lsn) }
    ensures size { IfOk result (λ parts. parts.1.ring.size ≡ config.ring) }
    ensures stands { IfOk result (λ parts. Stands parts.1 at_rest (D.state disk.new).told) }
    ensures empty { OnOk result (ForTold (D.state disk.old).told (λ m. m ≡ blank)) }
    ensures made { OnOk result (Steps (D.state disk.old).told (D.state disk.new).told
        (λ m. with_created m 0 system_size)) }
    ensures not_empty { result ≡ Err causes.NotEmpty → ForTold (D.state disk.old).told IsNotEmpty }
    ensures works { Alters (result ≡ Err causes.DiskFault) (D.state disk.old) (D.state disk.new) }
{
    if !is_empty(alloc, disk)? {
        return Err(OpenCause::NotEmpty);
    }
    let mut flusher = Flusher::new(alloc);
    flusher.file_made(0, SYSTEM_PAGES)?;
    let (transactions, buffer) = open(alloc, config.pool, config.ring, disk)?;
    Ok((transactions, buffer, flusher))
}

/// Whether a disk holds neither a space nor a mark.
pub fn is_empty<D: PageDisk>(alloc: Global, disk: &mut D) -> Result<bool, Refusal>
    ensures empty { IfOk result
        (λ empty. IsTrue empty → ForTold (D.state disk.old).told (λ m. m ≡ blank)) }
    ensures not_empty { IfOk result
        (λ empty. empty ≡ false → ForTold (D.state disk.old).told IsNotEmpty) }
    ensures asks { Asks (D.state disk.old) (D.state disk.new) result }
{
    if !disk.spaces(alloc)?.is_empty() {
        return Ok(false);
    }
    Ok(disk.read_mark()?.is_none())
}

impl From<AllocError> for OpenCause {
    ghost use Rattle.std.specs.Prelude.{◌≡◌};
    ghost use Rattle.clone_engine.specs.declared.opening.OpenCause.TheVariants.{NoMemory};

    ghost from_gives = { λ _ cause. cause ≡ NoMemory };

    fn from(_: AllocError) -> OpenCause {
        OpenCause::NoMemory
    }
}

impl From<Refusal> for OpenCause {
    ghost use Rattle.std.specs.Prelude.{◌≡◌};
    ghost use Rattle.clone_engine.specs.Opening.{cause_of};

    ghost from_gives = { λ refusal cause. cause ≡ cause_of refusal };

    fn from(refusal: Refusal) -> OpenCause {
        match refusal {
            Refusal::Fault => OpenCause::DiskFault,
            Refusal::NoMemory => OpenCause::NoMemory,
        }
    }
}

impl From<OpenRefused> for OpenCause {
    ghost use Rattle.std.specs.Prelude.{◌≡◌};
    ghost use Rattle.clone_engine.specs.Opening.{cause_after};

    ghost from_gives = { λ refusal cause. cause ≡ cause_after refusal };

    fn from(refusal: OpenRefused) -> OpenCause {
        match refusal {
            OpenRefused::DiskFault => OpenCause::DiskFault,
            OpenRefused::NoMemory => OpenCause::NoMemory,
        }
    }
}
