//! A copy of the log from the LSN `start` on: byte i is the one at LSN `start` + i. It ends below
//! 2^39 and, once the end is fixed, not past that; the fixed end is below 2^39, too.
ghost use Rattle.std.specs.Prelude.{◌≡◌, ◌≤◌, ◌<◌, ◌+◌, ◌^◌, Some, length, IfOk, OnOk, OnErr};
ghost use Rattle.std.specs.Option.{ForSome};
ghost use Rattle.clone_ring.specs.Window.{end_of};
ghost use Rattle.clone_archive.specs.Archived.{archived_of, begun, stopped, copied, next_count};
ghost use Rattle.clone_archive.specs.Archived.{kept_from, Reads, IsArchived};
ghost use Rattle.clone_base.specs.declared.limits.TheConstants.{LSN_LIMIT};

use crate::ArchiveBehind;
use crate::blocks::Blocks;
use clone_base::LSN_LIMIT;
use clone_ring::Ring;
use std::alloc::{AllocError, Global};
use std::marker::Model;

/// An archive that stands: the bytes of the log from an LSN on. It ends below the limit of LSNs,
/// and not past the end that was fixed.
#[derive(Drop)]
pub(crate) struct LogCopy {
    start: u64,
    blocks: Blocks,
    stop: Option<u64>,
}

impl Model for LogCopy {
    ghost use Rattle.clone_archive.specs.Archived.{Archived, archived_code, IsArchived};

    ghost Value = { Archived };

    ghost coded = { archived_code };

    ghost view = { λ c. record { start = c.start; bytes = c.blocks.bytes; stop = c.stop } };

    ghost invariant = { λ c. IsArchived
        (record { start = c.start; bytes = c.blocks.bytes; stop = c.stop }) };
}

impl LogCopy {
    /// No bytes yet, from an LSN on.
    pub(crate) fn new(alloc: Global, start: u64) -> LogCopy
        requires { start < LSN_LIMIT }
        ensures { result ≡ begun start }
    {
        LogCopy {
            start,
            blocks: Blocks::new(alloc),
            stop: None,
        }
    }

    /// The LSN of the first byte.
    pub(crate) fn start(&self) -> u64
        ensures { result ≡ self.now.start }
    {
        self.start
    }

    /// The LSN behind the last byte.
    pub(crate) fn archived(&self) -> u64
        ensures { result ≡ archived_of self.now }
    {
        self.start + self.blocks.len() as u64
    }

    /// Where archiving ends, once that is fixed.
    pub(crate) fn end(&self) -> Option<u64>
        ensures { result ≡ self.now.stop }
    {
        self.stop
    }

    /// The archived LSN, or none where the fixed end is reached.
    pub(crate) fn kept_from(&self) -> Option<u64>
        ensures { result ≡ kept_from (Some self.now) }
    {
        let archived = self.archived();
        match self.stop {
            Some(end) if end <= archived => None,
            _ => Some(archived),
        }
    }

    /// Copies the ring's next bytes behind the others.
    pub(crate) fn copy_some(&mut self, ring: &Ring, limit: u64) -> Result<u64, AllocError>
        requires kept { ForSome (kept_from (Some self.old))
            (λ lsn. (ring.now.floor ≤ lsn) × (lsn ≤ end_of ring.now)) }
        requires within { ForSome self.old.stop (λ end. end ≤ end_of ring.now) }
        ensures copied { OnOk result
            (self.new ≡ copied (next_count limit self.old ring.now) self.old ring.now) }
        ensures answer { IfOk result (λ lsn. lsn ≡ archived_of self.new) }
        ensures unchanged { OnErr result (self.new ≡ self.old) }
    {
        let from = self.archived();
        let count = self.next_count(ring, limit);
        if 0 < count {
            self.blocks.append(ring, from, from + count)?;
        }
        Ok(self.archived())
    }

    /// Fixes where archiving ends.
    pub(crate) fn stop(&mut self, end: u64)
        requires reached { archived_of self.old ≤ end }
        requires below { end < LSN_LIMIT }
        ensures { self.new ≡ stopped end self.old }
    {
        self.stop = Some(end);
    }

    /// Fills the slice with the bytes from an LSN on, where all of them are there.
    pub(crate) fn read(&self, from: u64, into: &mut [u8]) -> Result<(), ArchiveBehind>
        requires above { self.now.start ≤ from }
        requires below { from + length into.old < 2 ^ 64 }
        ensures { Reads from into.old into.new self.now result }
    {
        let archived = self.archived();
        let until = from + into.len() as u64;
        if archived < until {
            return Err(ArchiveBehind { archived, until });
        }
        self.blocks.read((from - self.start) as usize, into);
        Ok(())
    }

    /// What holds of every archive that stands.
    pub(crate) fn laws(&self)
        ensures { IsArchived self.now }
    {
        let _ = &self.blocks;
    }

    // How many bytes of the ring come next.
    fn next_count(&self, ring: &Ring, limit: u64) -> u64
        requires kept { ForSome (kept_from (Some self.now))
            (λ lsn. (ring.now.floor ≤ lsn) × (lsn ≤ end_of ring.now)) }
        requires within { ForSome self.now.stop (λ end. end ≤ end_of ring.now) }
        ensures value { result ≡ next_count limit self.now ring.now }
        ensures above { 0 < result → ring.now.floor ≤ archived_of self.now }
        ensures within { archived_of self.now + result ≤ end_of ring.now }
        ensures below { archived_of self.now + result < LSN_LIMIT }
    {
        let until = self.stop.unwrap_or(ring.end());
        limit.min(until - self.archived())
    }
}
