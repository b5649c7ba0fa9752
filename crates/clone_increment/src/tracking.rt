//! What a donor notes between two copies of its files.
ghost use Rattle.std.specs.Prelude.{◌≡◌, ◌<◌, ◌+◌, None, Some, IfOk, IfErr, IsSome, OnErr, OnOk, IsErrOf};
ghost use Rattle.clone_outside.specs.Disk.{ForTold};
ghost use Rattle.clone_outside.specs.DiskCalls.{Asks, Reads};
ghost use Rattle.clone_increment.specs.Copies.{IsImageOf, IsQuiet, KeepsAll};
ghost use Rattle.clone_increment.specs.Tracked.{IsTakenSince, MayRefuseFull, MayRefuseIncrement, no_changes, noted, noted_made};
ghost use Rattle.clone_increment.specs.declared.refusal.BackupRefusal.TheVariants.{DiskFault};

use crate::changes::Changes;
use crate::reading::{read_all, sizes_of};
use crate::{Backup, BackupRefusal, Increment};
use clone_outside::{PageDisk, Refusal};
use std::alloc::{AllocError, Global};
use std::marker::Model;

/// What changed since the last copy, if there was one, and the number of the next increment.
#[derive(Drop)]
pub struct Tracking {
    alloc: Global,
    since: Option<Changes>,
    number: u32,
}

impl Model for Tracking {
    ghost use Rattle.clone_increment.specs.Tracked.{Tracked, tracked_code};

    ghost Value = { Tracked };

    ghost coded = { tracked_code };

    ghost view = { λ t. record { since = t.since; number = t.number } };
}

impl Tracking {
    /// Without a full copy, and with the number 0. No memory is taken.
    pub fn new(alloc: Global) -> Tracking
        ensures { result ≡ record { since = None; number = 0 } }
    {
        Tracking {
            alloc,
            since: None,
            number: 0,
        }
    }

    /// The number of the next increment.
    pub fn number(&self) -> u32
        ensures { result ≡ self.now.number }
    {
        self.number
    }

    /// A page is being written. Without a full copy nothing is noted. After a refusal all is as
    /// before.
    pub fn note(&mut self, space: u32, page: u32) -> Result<(), AllocError>
        ensures ok { OnOk result (self.new ≡ noted self.old (space, page)) }
        ensures err { OnErr result (self.new ≡ self.old) }
    {
        match &mut self.since {
            Some(changes) => changes.write(space, page),
            None => Ok(()),
        }
    }

    /// A space was made. Without a full copy nothing is noted. After a refusal all is as before.
    pub fn note_made(&mut self, space: u32) -> Result<(), AllocError>
        ensures ok { OnOk result (self.new ≡ noted_made self.old space) }
        ensures err { OnErr result (self.new ≡ self.old) }
    {
        match &mut self.since {
            Some(changes) => changes.make(space),
            None => Ok(()),
        }
    }

    /// Copies every page of a disk of which so many pages are being written, and notes from then
    /// on. After a refusal all is as before.
    pub fn full<D: PageDisk>(&mut self, disk: &mut D, writes: u32) -> Result<Backup, BackupRefusal>
        ensures ok { OnOk result (writes ≡ 0) }
        ensures err { IfErr result (MayRefuseFull writes) }
        ensures image { IfOk result (λ backup. ForTold (D.state disk.old).told
            (λ m. IsQuiet m → IsImageOf backup.copy m)) }
        ensures kept { IfOk result (λ backup. ForTold (D.state disk.old).told
            (λ m. IsQuiet m → KeepsAll backup.copy m)) }
        ensures next { IfOk result (λ backup. backup.next ≡ self.old.number) }
        ensures begun { OnOk result
            (self.new ≡ record self.old { since = Some no_changes }) }
        ensures same { OnErr result (self.new ≡ self.old) }
        ensures reads { Reads (IsErrOf result DiskFault) (D.state disk.old) (D.state disk.new) }
    {
        if writes != 0 {
            return Err(BackupRefusal::OpenWrites { count: writes });
        }
        let backup = copied(self.alloc, disk, self.number)?;
        self.since = Some(Changes::new(self.alloc));
        Ok(backup)
    }

    /// Copies the pages of a disk that were noted since the last copy and that are still there.
    /// After a refusal all is as before.
    pub fn increment<D: PageDisk>(
        &mut self,
        disk: &mut D,
        writes: u32,
    ) -> Result<Increment, BackupRefusal>
        requires { self.old.number < u32.MAX }
        ensures ok { OnOk result ((writes ≡ 0) × IsSome self.old.since) }
        ensures err { IfErr result (MayRefuseIncrement writes self.old.since) }
        ensures taken { IfOk result (λ increment. ForTold (D.state disk.old).told
            (λ m. IsQuiet m → IsTakenSince self.old.since m increment)) }
        ensures number { IfOk result (λ increment. increment.number ≡ self.old.number) }
        ensures next { IfOk result (λ increment. increment.next ≡ self.old.number + 1) }
        ensures begun { OnOk result
            (self.new ≡ record { since = Some no_changes; number = self.old.number + 1 }) }
        ensures same { OnErr result (self.new ≡ self.old) }
        ensures reads { Reads (IsErrOf result DiskFault) (D.state disk.old) (D.state disk.new) }
    {
        if writes != 0 {
            return Err(BackupRefusal::OpenWrites { count: writes });
        }
        let Some(changes) = &self.since else {
            return Err(BackupRefusal::NoFull);
        };
        let increment = Increment::take(self.alloc, disk, changes, self.number)?;
        self.since = Some(Changes::new(self.alloc));
        self.number += 1;
        Ok(increment)
    }
}

// Every page of a disk.
fn copied<D: PageDisk>(alloc: Global, disk: &mut D, next: u32) -> Result<Backup, Refusal>
    ensures image { IfOk result (λ backup. ForTold (D.state disk.old).told
        (λ m. IsQuiet m → IsImageOf backup.copy m)) }
    ensures kept { IfOk result (λ backup. ForTold (D.state disk.old).told
        (λ m. IsQuiet m → KeepsAll backup.copy m)) }
    ensures next { IfOk result (λ backup. backup.next ≡ next) }
    ensures asks { Asks (D.state disk.old) (D.state disk.new) result }
{
    let sizes = sizes_of(alloc, disk)?;
    let pages = read_all(alloc, disk, &sizes)?;
    Ok(Backup {
        alloc,
        sizes,
        pages,
        next,
    })
}
