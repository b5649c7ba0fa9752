ghost use Rattle.std.specs.Prelude.{◌≡◌, [], OnOk, IfOk, IfErr, IsErrOf, unwrap_or};
ghost use Rattle.clone_mtr.specs.References.{record_of};
ghost use Rattle.clone_outside.specs.DiskCalls.{Reads};
ghost use Rattle.clone_overlay.specs.Shown.{IsReady, ShowsSame};
ghost use Rattle.clone_recover.specs.Damage.{HeaderOn};
ghost use Rattle.clone_recover.specs.Meetings.{met, Settles};
ghost use Rattle.clone_recover.specs.Reading.{redo_length, HasRedoOn, IsNoRedoOn};
ghost use Rattle.clone_recover.specs.Redo.{MeetsOn, StepsOn, RedoesOn};
ghost use Rattle.clone_recover.specs.Restores.{LeavesOn, IsRedoCause};

use crate::RecoverRefusal;
use crate::log::Log;
use crate::refusal::not_fetched;
use clone_mtr::{RecordRef, Records};
use clone_outside::{CloneEnd, PageDisk};
use clone_overlay::Overlay;
use std::alloc::{AllocError, Global};

/// A page that a record of a mini-transaction met, and whether those that name it count.
#[derive(Clone, Copy)]
pub struct Meeting {
    /// The page's space.
    pub space: u32,
    /// The page's number within its space.
    pub number: u32,
    /// Whether the page was older than the mini-transaction.
    pub counts: bool,
}

/// Reads all of the log, and tests that it is one.
pub fn check_log<R: PageDisk>(disk: &mut R, end: &CloneEnd) -> Result<(), RecoverRefusal>
    ensures redo { OnOk result (HasRedoOn (R.state disk.old).told (redo_length end.now)) }
    ensures cause { IfErr result (IsNoRedoOn (R.state disk.old).told (redo_length end.now)) }
    ensures known { IsErrOf result RecoverRefusal.Incomplete → ⊥ }
    ensures reads { Reads (IsErrOf result RecoverRefusal.DiskFault)
        (R.state disk.old) (R.state disk.new) }
{
    let mut log = Log::open(disk, end)?;
    while log.goes_on(disk)? {
        let (_, length) = log.next()?;
        log.pass(length);
    }
    Ok(())
}

/// Carries out the log of a disk over its pages.
pub fn redo<R: PageDisk>(
    alloc: Global,
    disk: &mut R,
    overlay: &mut Overlay,
    end: &CloneEnd,
) -> Result<(), RecoverRefusal>
    ensures ok { OnOk result (LeavesOn (R.state disk.old).told end.now overlay.old overlay.new) }
    ensures cause { IfErr result (IsRedoCause (R.state disk.old).told end.now overlay.old) }
    ensures known { IsErrOf result RecoverRefusal.Incomplete → ⊥ }
    ensures reads { Reads (IsErrOf result RecoverRefusal.DiskFault)
        (R.state disk.old) (R.state disk.new) }
{
    let mut log = Log::open(disk, end)?;
    let mut meetings = Vec::new(alloc);
    while log.goes_on(disk)? {
        let (mtr, length) = log.next()?;
        let lsn = end.checkpoint + log.at() + length;
        meetings.clear();
        redo_records(alloc, disk, overlay, &mut meetings, mtr, lsn)?;
        log.pass(length);
    }
    Ok(())
}

// Carries out the records of a mini-transaction that ends here. It has met no page yet.
fn redo_records<R: PageDisk>(
    alloc: Global,
    disk: &mut R,
    overlay: &mut Overlay,
    meetings: &mut Vec<Meeting>,
    mut records: Records,
    lsn: u64,
) -> Result<(), RecoverRefusal>
    requires { meetings.old.items ≡ [] }
    ensures ok { OnOk result
        (RedoesOn (R.state disk.old).told lsn overlay.old overlay.new records.entry) }
    ensures cause { IfErr result (HeaderOn (R.state disk.old).told overlay.old) }
    ensures known { IsErrOf result RecoverRefusal.Incomplete → ⊥ }
    ensures reads { Reads (IsErrOf result RecoverRefusal.DiskFault)
        (R.state disk.old) (R.state disk.new) }
{
    while let Some(entry) = records.next() {
        redo_record(alloc, disk, overlay, meetings, &entry, lsn)?;
    }
    Ok(())
}

// Carries out a record, if it counts.
fn redo_record<R: PageDisk>(
    alloc: Global,
    disk: &mut R,
    overlay: &mut Overlay,
    meetings: &mut Vec<Meeting>,
    entry: &RecordRef,
    lsn: u64,
) -> Result<(), RecoverRefusal>
    ensures ok { OnOk result (StepsOn (R.state disk.old).told lsn overlay.old overlay.new
        meetings.old.items meetings.new.items (record_of entry.now)) }
    ensures cause { IfErr result (HeaderOn (R.state disk.old).told overlay.old) }
    ensures known { IsErrOf result RecoverRefusal.Incomplete → ⊥ }
    ensures reads { Reads (IsErrOf result RecoverRefusal.DiskFault)
        (R.state disk.old) (R.state disk.new) }
{
    match entry {
        RecordRef::Init { space, page, .. } | RecordRef::Write { space, page, .. } => {
            if !meet(disk, overlay, meetings, *space, *page, lsn)? {
                return Ok(());
            }
            Ok(overlay.apply(alloc, entry, lsn)?)
        }
        RecordRef::Extend { .. } | RecordRef::Create { .. } | RecordRef::Drop { .. } => {
            Ok(overlay.apply(alloc, entry, lsn)?)
        }
    }
}

// Comes to a page with a record that names it, and says whether the record counts: the page stands,
// and the first record of the mini-transaction that met it found it older.
fn meet<R: PageDisk>(
    disk: &mut R,
    overlay: &mut Overlay,
    meetings: &mut Vec<Meeting>,
    space: u32,
    number: u32,
    lsn: u64,
) -> Result<bool, RecoverRefusal>
    ensures ready { OnOk result (IsReady overlay.new space number) }
    ensures met { IfOk result (MeetsOn (R.state disk.old).told lsn space number
        overlay.old overlay.new meetings.old.items meetings.new.items) }
    ensures cause { IfErr result (HeaderOn (R.state disk.old).told overlay.old) }
    ensures known { IsErrOf result RecoverRefusal.Incomplete → ⊥ }
    ensures reads { Reads (IsErrOf result RecoverRefusal.DiskFault)
        (R.state disk.old) (R.state disk.new) }
{
    fetch(disk, overlay, space, number)?;
    match overlay.page(space, number) {
        Some(page) => Ok(settle(meetings, space, number, page.lsn() < lsn)?),
        None => Ok(false),
    }
}

// Settles whether records of a page count, if that wasn't settled yet.
fn settle(
    meetings: &mut Vec<Meeting>,
    space: u32,
    number: u32,
    older: bool,
) -> Result<bool, AllocError>
    ensures counts { IfOk result
        (λ counts. counts ≡ unwrap_or (met meetings.old.items space number) older) }
    ensures met { OnOk result
        (Settles space number older meetings.old.items meetings.new.items) }
{
    if let Some(counts) = met_at(meetings, space, number) {
        return Ok(counts);
    }
    meetings.push(Meeting {
        space,
        number,
        counts: older,
    })?;
    Ok(older)
}

// Whether the records of a page count, if that is settled.
fn met_at(meetings: &[Meeting], space: u32, number: u32) -> Option<bool>
    ensures { result ≡ met meetings.now space number }
{
    for meeting in meetings {
        if meeting.space == space && meeting.number == number {
            return Some(meeting.counts);
        }
    }
    None
}

/// Makes a page ready. `Header` is named by the page.
pub fn fetch<R: PageDisk>(
    disk: &mut R,
    overlay: &mut Overlay,
    space: u32,
    number: u32,
) -> Result<(), RecoverRefusal>
    ensures ready { OnOk result (IsReady overlay.new space number) }
    ensures shows { OnOk result (ShowsSame (R.state disk.old).told overlay.old overlay.new) }
    ensures cause { IfErr result (HeaderOn (R.state disk.old).told overlay.old) }
    ensures known { IsErrOf result RecoverRefusal.Incomplete → ⊥ }
    ensures reads { Reads (IsErrOf result RecoverRefusal.DiskFault)
        (R.state disk.old) (R.state disk.new) }
{
    match overlay.fetch(disk, space, number) {
        Ok(()) => Ok(()),
        Err(cause) => Err(not_fetched(space, number, cause)),
    }
}
