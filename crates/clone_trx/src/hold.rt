ghost use Rattle.std.specs.Prelude.{ℕ, ◌≡◌, ◌<◌, ◌≤◌, ◌+◌, IfOk, IfErr, IsTrue, IsErrOf, IsSome, None, Some, ◌⊎◌, length, drop, if◌then◌else◌};
ghost use Rattle.std.specs.declared.option.Option.{Option};
ghost use Rattle.std.specs.List.{AllByRecursion};
ghost use Rattle.clone_outside.specs.Disk.{DiskImage, ForTold};
ghost use Rattle.clone_outside.specs.DiskCalls.{Reads};
ghost use Rattle.clone_mtr.specs.Spelling.{spelling, longest};
ghost use Rattle.clone_image.specs.Image.{page_of, EditsPages};
ghost use Rattle.clone_pool.specs.declared.frame.PageName.{PageName};
ghost use Rattle.clone_pool.specs.Frames.{frame_at};
ghost use Rattle.clone_buffer.specs.Buffered.{image_of};
ghost use Rattle.clone_buffer.specs.Keeping.{Stands};
ghost use Rattle.clone_buffer.specs.OnePage.{Beside};
ghost use Rattle.clone_buffer.specs.Dropping.{AreUnpinned, DropsSpace, without_pages};
ghost use Rattle.clone_buffer.specs.Writing.{Creates, HasFrame, HasMade, IsOnPage, Lengthens, with_made, written};
ghost use Rattle.clone_plain.specs.declared.refusal.EngineRefusal.TheVariants.{Because, NoMemory};
ghost use Rattle.clone_plain.specs.declared.refusal.Cause.{Cause};
ghost use Rattle.clone_plain.specs.declared.refusal.Cause.TheVariants.{DiskFault};
ghost use Rattle.clone_trx.specs.Calls.{is_new};
ghost use Rattle.clone_trx.specs.Kept.{Has};
ghost use Rattle.clone_trx.specs.Ways.{HasNoFrame, HasRoom, Holds, IsFull, MissesBy, PinsAtMost, StaysOutside, StaysStanding, Takes, let_go, page_in};

use clone_buffer::Buffer;
use clone_mtr::Record;
use clone_outside::{PageDisk, Refusal};
use clone_page::Page;
use clone_plain::{Cause, EngineRefusal};
use clone_pool::FetchRefusal;

/// Brings a page into a frame, pins it there, and answers the frame's number. It is refused where
/// there is no frame for it, and where the disk fails.
pub fn hold<D: PageDisk>(
    buffer: &mut Buffer,
    disk: &mut D,
    space: u32,
    number: u32,
) -> Result<u32, EngineRefusal>
    requires there { IsTrue buffer.old.right
        → IsSome (page_of (image_of buffer.old) space number) }
    requires pins { PinsAtMost 8 buffer.old.pool.frames }
    ensures held { IfOk result
        (λ at. Holds (record { space = space; number = number }) at buffer.old buffer.new) }
    ensures missed { IfErr result
        (λ refusal. MissesBy (record { space = space; number = number }) refusal buffer.old
        buffer.new) }
    ensures has { IfOk result
        (λ at. Has (record { space = space; number = number }) at buffer.new.pool.frames) }
    ensures stay { (page : PageName) (at : ℕ) → Has page at buffer.old.pool.frames
        → Has page at buffer.new.pool.frames }
    ensures right { IfOk result (λ at. IsTrue buffer.new.right
        → page_of (image_of buffer.new) space number ≡ Some (page_in at buffer.new)) }
    ensures log { buffer.new.log ≡ buffer.old.log }
    ensures before { IsTrue buffer.new.right → IsTrue buffer.old.right }
    ensures pins { (most : ℕ) → PinsAtMost most buffer.old.pool.frames
        → PinsAtMost (most + 1) buffer.new.pool.frames }
    ensures reads { Reads (IsErrOf result (Because DiskFault))
        (D.state disk.old) (D.state disk.new) }
    ensures stands { StaysStanding buffer.old buffer.new
        (D.state disk.old).told (D.state disk.new).told }
{
    buffer.laws();
    let fetched = buffer.fetch(disk, space, number);
    buffer.laws();
    match fetched {
        Ok(at) => {
            buffer.pin(at);
            buffer.laws();
            Ok(at)
        }
        Err(FetchRefusal::PoolFull { frames }) => Err(Cause::PoolFull { frames }.into()),
        Err(FetchRefusal::DiskFault) => Err(Cause::DiskFault.into()),
    }
}

/// Takes a frame for a new page, pins it, and answers the frame's number. It is refused where there
/// is no frame for it.
pub fn hold_new(buffer: &mut Buffer, space: u32, number: u32) -> Result<u32, EngineRefusal>
    requires absent { IsTrue buffer.old.right → page_of (image_of buffer.old) space number ≡ None }
    requires pins { PinsAtMost 8 buffer.old.pool.frames }
    ensures taken { IfOk result
        (λ at. Takes (record { space = space; number = number }) at buffer.old buffer.new) }
    ensures none { IfErr result (λ refusal. (cause : Cause) × (refusal ≡ Because cause)
        × HasNoFrame (record { space = space; number = number }) buffer.old cause
        × (buffer.new ≡ buffer.old)) }
    ensures has { IfOk result
        (λ at. Has (record { space = space; number = number }) at buffer.new.pool.frames) }
    ensures stay { (page : PageName) (at : ℕ) → Has page at buffer.old.pool.frames
        → Has page at buffer.new.pool.frames }
    ensures same { buffer.new ≡ record buffer.old { pool = buffer.new.pool } }
    ensures pins { (most : ℕ) → PinsAtMost most buffer.old.pool.frames
        → PinsAtMost (most + 1) buffer.new.pool.frames }
    ensures stands { (told : Option DiskImage) → StaysStanding buffer.old buffer.new told told }
{
    buffer.laws();
    let taken = buffer.fresh(space, number);
    buffer.laws();
    match taken {
        Ok(at) => Ok(at),
        Err(FetchRefusal::PoolFull { frames }) => Err(Cause::PoolFull { frames }.into()),
        Err(FetchRefusal::DiskFault) => unreachable!(),
    }
}

/// Takes the pin of a page away that was held.
pub fn release(buffer: &mut Buffer, at: u32)
    requires { 0 < (frame_at buffer.old.pool.frames at).pins }
    ensures is { buffer.new ≡ let_go at buffer.old }
    ensures stay { (page : PageName) (other : ℕ) → Has page other buffer.old.pool.frames
        → 0 < (frame_at buffer.new.pool.frames other).pins
        → Has page other buffer.new.pool.frames }
    ensures stands { (told : Option DiskImage) → StaysStanding buffer.old buffer.new told told }
{
    buffer.laws();
    buffer.unpin(at);
    buffer.laws();
}

/// Refuses where the log has no room for a mini-transaction.
pub fn check_room(buffer: &Buffer, records: &[Record]) -> Result<(), EngineRefusal>
    requires short { length (spelling records.now) ≤ longest }
    ensures room { IfOk result (λ _. HasRoom records.now buffer.now) }
    ensures full { IfErr result (λ refusal. (cause : Cause) × (refusal ≡ Because cause)
        × IsFull records.now buffer.now cause) }
{
    match buffer.room_for(records) {
        Ok(()) => Ok(()),
        Err(full) => Err(Cause::LogFull {
            need: full.need,
            free: full.free,
        }
        .into()),
    }
}

/// Writes a mini-transaction for which the log has room, on pages that are held.
pub fn write_held(buffer: &mut Buffer, records: &[Record])
    requires some { 1 ≤ length records.now }
    requires short { length (spelling records.now) ≤ longest }
    requires room { HasRoom records.now buffer.old }
    requires edits { AllByRecursion EditsPages records.now }
    requires framed { AllByRecursion (HasFrame buffer.old.pool.frames) records.now }
    requires there { IsTrue buffer.old.right
        → AllByRecursion (IsOnPage (image_of buffer.old)) records.now }
    ensures written { buffer.new ≡ written records.now buffer.old }
    ensures stands { (told : Option DiskImage) → StaysStanding buffer.old buffer.new told told }
{
    match buffer.write(records) {
        Ok(_) => {}
        Err(_) => unreachable!(),
    }
}

/// Writes a mini-transaction that makes a space, for which the log has room.
pub fn write_space_held(buffer: &mut Buffer, records: &[Record])
    requires some { 1 ≤ length records.now }
    requires short { length (spelling records.now) ≤ longest }
    requires room { HasRoom records.now buffer.old }
    requires creates { IsTrue buffer.old.right → Creates buffer.old records.now }
    ensures written { buffer.new ≡ written records.now buffer.old }
    ensures stands { (beside : Beside) (told : Option DiskImage)
        → Stands buffer.old beside told → ForTold told (HasMade records.now)
        → Stands buffer.new (with_made records.now beside) told }
{
    match buffer.write_space(records) {
        Ok(_) => {}
        Err(_) => unreachable!(),
    }
}

/// Writes a mini-transaction that makes a space longer, for which the log has room. What was held
/// stays held.
pub fn write_longer_held(buffer: &mut Buffer, records: &[Record])
    requires some { 1 ≤ length records.now }
    requires short { length (spelling records.now) ≤ longest }
    requires room { HasRoom records.now buffer.old }
    requires longer { IsTrue buffer.old.right → Lengthens buffer.old records.now }
    ensures written { buffer.new ≡ written records.now buffer.old }
    ensures stay { (page : PageName) (at : ℕ) → Has page at buffer.old.pool.frames
        → Has page at buffer.new.pool.frames }
    ensures stands { (told : Option DiskImage) → StaysStanding buffer.old buffer.new told told }
{
    match buffer.write_longer(records) {
        Ok(_) => buffer.laws(),
        Err(_) => unreachable!(),
    }
}

/// Gives up the pages of a space below a number, and writes the mini-transaction that drops the
/// space, for which the log has room.
pub fn write_drop_held(buffer: &mut Buffer, space: u32, pages: u32, records: &[Record])
    requires some { 1 ≤ length records.now }
    requires short { length (spelling records.now) ≤ longest }
    requires room { HasRoom records.now buffer.old }
    requires unpinned { AreUnpinned space buffer.old.pool.frames }
    requires drops { IsTrue buffer.old.right → DropsSpace buffer.old space pages records.now }
    ensures written { buffer.new
        ≡ written records.now (without_pages space pages buffer.old) }
    ensures stands { (told : Option DiskImage)
        → StaysOutside space buffer.old buffer.new told told }
{
    match buffer.drop_space(space, pages, records) {
        Ok(_) => {}
        Err(_) => unreachable!(),
    }
}

/// The number of the first of the records that are written to a page of the system space: the one
/// that makes the page where it is new, else the one behind.
pub fn first_record(page: &Page) -> usize
    ensures { result ≡ (if is_new page.now then 0 else 1) }
{
    if page.kind() == 0 { 0 } else { 1 }
}

/// A refusal of the disk as one of the donor.
pub fn refused_by(refusal: Refusal) -> EngineRefusal
    ensures fault { result ≡ Because DiskFault → refusal ≡ Refusal.Fault }
    ensures memory { (result ≡ Because DiskFault → ⊥) → refusal ≡ Refusal.NoMemory }
    ensures either { (result ≡ Because DiskFault) ⊎ (result ≡ NoMemory) }
{
    match refusal {
        Refusal::Fault => Cause::DiskFault.into(),
        Refusal::NoMemory => EngineRefusal::NoMemory,
    }
}

/// The records from this one on.
pub fn records_from(records: &[Record], first: usize) -> &[Record]
    requires { first ≤ length records.now }
    ensures { result.now ≡ drop first records.now }
{
    &records[first..]
}
