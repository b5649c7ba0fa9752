//! The redo that a session keeps beside the ring. While an archive stands, its bytes follow one
//! another from its first LSN on, as a copy of the log keeps them; else nothing is held. That the
//! bytes are those of the donor's log is the rule of the donor.
ghost use Rattle.std.specs.Prelude.{◌≡◌, ◌↔◌, ◌≤◌, ◌<◌, ◌+◌, ◌^◌, None, Some, length};
ghost use Rattle.std.specs.Prelude.{IsSome, IfSome, IfOk, OnOk, OnErr, option_map};
ghost use Rattle.std.specs.Option.{ForSome};
ghost use Rattle.clone_ring.specs.Window.{end_of};
ghost use Rattle.clone_archive.specs.Archived.{begun, stopped, copied, next_count};
ghost use Rattle.clone_archive.specs.Archived.{kept_from, start_of, archived_in, end_in};
ghost use Rattle.clone_archive.specs.Archived.{Reads, IsArchived};

use crate::ArchiveBehind;
use crate::log_copy::LogCopy;
use clone_base::LSN_LIMIT;
use clone_ring::Ring;
use std::alloc::{AllocError, Global};
use std::marker::Model;

/// The bytes of the redo log that a session keeps beside the ring. Contracts see the LSN of the
/// first byte, the bytes, and where archiving ends, once that is fixed; or that no archive stands.
#[derive(Drop)]
pub struct Archive {
    alloc: Global,
    standing: Option<LogCopy>,
}

impl Model for Archive {
    ghost use Rattle.std.specs.Prelude.{Option};
    ghost use Rattle.std.specs.Coded.{coded_option};
    ghost use Rattle.clone_archive.specs.Archived.{Archived, archived_code};

    ghost Value = { Option Archived };

    ghost coded = { coded_option archived_code };

    ghost view = { λ a. a.standing };
}

impl Archive {
    /// No archive stands. No memory is taken.
    pub fn new(alloc: Global) -> Archive
        ensures { result ≡ None }
    {
        Archive {
            alloc,
            standing: None,
        }
    }

    /// An archive stands from then on, which starts at this LSN and has no bytes. What stood before
    /// goes. No memory is taken.
    pub fn start(&mut self, checkpoint: u64)
        requires { checkpoint < LSN_LIMIT }
        ensures { self.new ≡ Some (begun checkpoint) }
    {
        self.standing = Some(LogCopy::new(self.alloc, checkpoint));
    }

    /// No archive stands from then on. No memory is taken.
    pub fn clear(&mut self)
        ensures { self.new ≡ None }
    {
        self.standing = None;
    }

    /// The LSN where the archive starts, if one stands.
    pub fn first(&self) -> Option<u64>
        ensures value { result ≡ start_of self.now }
        ensures stands { IsSome result ↔ IsSome self.now }
    {
        Some(self.standing.as_ref()?.start())
    }

    /// The archived LSN: the one behind the last byte.
    pub fn archived(&self) -> Option<u64>
        ensures { result ≡ archived_in self.now }
    {
        Some(self.standing.as_ref()?.archived())
    }

    /// Where archiving ends, once that is fixed.
    pub fn end(&self) -> Option<u64>
        ensures { result ≡ end_in self.now }
    {
        self.standing.as_ref()?.end()
    }

    /// The LSN from which on the ring's bytes are needed: the archived LSN, or none where no
    /// archive stands or it has reached its fixed end.
    pub fn kept_from(&self) -> Option<u64>
        ensures { result ≡ kept_from self.now }
    {
        self.standing.as_ref()?.kept_from()
    }

    /// Copies the ring's next bytes behind the others, up to where archiving ends but no more than
    /// the limit, and answers the archived LSN.
    pub fn copy_some(&mut self, ring: &Ring, limit: u64) -> Result<u64, AllocError>
        requires stands { IsSome self.old }
        requires kept { ForSome (kept_from self.old)
            (λ lsn. (ring.now.floor ≤ lsn) × (lsn ≤ end_of ring.now)) }
        requires within { ForSome (end_in self.old) (λ end. end ≤ end_of ring.now) }
        ensures copied { OnOk result (self.new
            ≡ option_map (λ a. copied (next_count limit a ring.now) a ring.now) self.old) }
        ensures answer { IfOk result (λ lsn. archived_in self.new ≡ Some lsn) }
        ensures unchanged { OnErr result (self.new ≡ self.old) }
    {
        let Some(standing) = &mut self.standing else {
            unreachable!()
        };
        standing.copy_some(ring, limit)
    }

    /// Fixes where archiving ends, also where another end was fixed before. No memory is taken.
    pub fn stop(&mut self, end: u64)
        requires stands { IsSome self.old }
        requires reached { ForSome (archived_in self.old) (λ archived. archived ≤ end) }
        requires below { end < LSN_LIMIT }
        ensures { self.new ≡ option_map (stopped end) self.old }
    {
        let Some(standing) = &mut self.standing else {
            unreachable!()
        };
        standing.stop(end);
    }

    /// Fills the slice with the bytes from an LSN on. It is refused exactly where the archive
    /// doesn't have all of them yet, and the slice is as it was then.
    pub fn read(&self, from: u64, into: &mut [u8]) -> Result<(), ArchiveBehind>
        requires stands { IsSome self.now }
        requires above { ForSome (start_of self.now) (λ start. start ≤ from) }
        requires below { from + length into.old < 2 ^ 64 }
        ensures { IfSome self.now (λ a. Reads from into.old into.new a result) }
    {
        let Some(standing) = &self.standing else {
            unreachable!()
        };
        standing.read(from, into)
    }

    /// What holds of every archive.
    pub fn laws(&self)
        ensures { ForSome self.now IsArchived }
    {
        if let Some(standing) = &self.standing {
            standing.laws();
        }
    }
}
