ghost use Rattle.std.specs.Prelude.{◌≡◌, ◌≤◌, ◌<◌, ◌+◌, ◌-◌, min, option_map, Some, IsSome};
ghost use Rattle.std.specs.Prelude.{IfSome, OnOk, OnErr};
ghost use Rattle.clone_base.specs.declared.limits.TheConstants.{LSN_LIMIT};
ghost use Rattle.clone_chunk.specs.declared.stage.Stage.TheVariants.{PageCopy};
ghost use Rattle.clone_snapshot.specs.StageLists.{Redo, chunk_count, stage_of};
ghost use Rattle.clone_session.specs.Cloning.{Session};
ghost use Rattle.clone_session.specs.CloneCalls.{Archives, CanArchive, archived_on};
ghost use Rattle.clone_archive.specs.Archived.{archived_of};
ghost use Rattle.clone_session.specs.Effects.{Becomes, with_noted};

use crate::Cloning;
use clone_base::LSN_LIMIT;
use clone_chunk::Stage;
use clone_ring::Ring;
use clone_snapshot::redo_chunks;
use std::alloc::AllocError;

// What is kept while a session stands: the pages whose write was opened, and the redo.
impl Cloning {
    /// Makes room for one page more to be noted, where pages are tracked.
    pub fn reserve_note(&mut self) -> Result<(), AllocError>
        ensures room { OnOk result (IsSome self.new.tracking.pages → 1 ≤ self.new.tracking.room) }
        ensures same { Becomes self.new self.old }
    {
        if self.tracker.is_tracking() {
            self.tracker.reserve()?;
        }
        Ok(())
    }

    /// Notes a page whose write counts as open from now on, where pages are tracked. No memory is
    /// taken.
    pub fn note(&mut self, space: u32, page: u32)
        requires room { IsSome self.old.tracking.pages → 1 ≤ self.old.tracking.room }
        ensures { Becomes self.new
            (with_noted (space, page) self.old) }
    {
        self.tracker.add(space, page);
    }

    /// Archives so many bytes of the log, or as many as are left up to the log's end, or to the
    /// stop. The answer is the LSN up to which the redo is archived, or none exactly where no
    /// archive stands. The error is out of memory, and nothing has changed then. Before the stop
    /// this makes the room for a copy of redo that ends a ring's size after that LSN.
    pub fn archive(&mut self, ring: &Ring, limit: u64) -> Result<Option<u64>, AllocError>
        requires ring { CanArchive self.old ring.now }
        ensures archives { Archives limit ring.now self.old self.new result }
    {
        let Some((start, reached)) = self.reached(ring, limit) else {
            return Ok(None);
        };
        self.reserve_redo(start, self.reach(reached))?;
        Ok(Some(self.archive.copy_some(ring, limit)?))
    }

    // Where the archive starts, and how far it reaches once so much more of the log is archived.
    fn reached(&self, ring: &Ring, limit: u64) -> Option<(u64, u64)>
        requires ring { CanArchive self.now ring.now }
        ensures reached { result ≡ option_map
            (λ a. (a.start, archived_of (archived_on limit ring.now a))) self.now.archive }
        ensures in_log { IfSome result (λ r. (r.0 ≤ r.1) × (r.1 < LSN_LIMIT)) }
    {
        self.archive.laws();
        let (start, archived) = (self.archive.first()?, self.archive.archived()?);
        let until = self.archive.end().unwrap_or(ring.end());
        Some((start, archived + limit.min(until - archived)))
    }

    /// A ring's size after an LSN, or where a log may end at most.
    pub(crate) fn reach(&self, lsn: u64) -> u64
        requires { lsn < LSN_LIMIT }
        ensures { result ≡ min (lsn + self.now.ring) (LSN_LIMIT - 1) }
    {
        (lsn + self.ring).min(LSN_LIMIT - 1)
    }

    // Makes the room for a copy of this redo, while pages are copied.
    fn reserve_redo(&mut self, start: u64, end: u64) -> Result<(), AllocError>
        requires ordered { start ≤ end }
        requires in_log { end < LSN_LIMIT }
        ensures room { OnOk result ((s : Session) → self.new.session ≡ Some s
            → stage_of s.snap.list ≡ PageCopy → chunk_count (Redo start end) ≤ s.snap.room) }
        ensures same { Becomes self.new self.old }
    {
        match &mut self.session {
            Some(session) if session.stage() == Stage::PageCopy => {
                session.snapshot.reserve(redo_chunks(start, end))
            }
            _ => Ok(()),
        }
    }
}
