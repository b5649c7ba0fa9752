ghost use Rattle.std.specs.Prelude.{◌≡◌, Some, IfOk, IsSome};
ghost use Rattle.clone_chunk.specs.Plans.{sizes_of};
ghost use Rattle.clone_session.specs.Cloning.{Session};
ghost use Rattle.clone_session.specs.Effects.{Tells, plan_of, position_of, range_of, spaces_in};

use crate::Cloning;
use crate::info::StageInfo;
use crate::session::Session;
use clone_chunk::{Spaces, Stage, StagePlan};
use std::alloc::{AllocError, Global};

// What a donor tells of the stage that its session has come to.
impl Cloning {
    // What it tells now. The error is out of memory for the spaces.
    pub(crate) fn current(&self, alloc: Global) -> Result<StageInfo, AllocError>
        requires stands { IsSome self.now.session }
        ensures { IfOk result (Tells self.now) }
    {
        let Some(session) = &self.session else {
            unreachable!();
        };
        let spaces = session.told_spaces(alloc)?;
        Ok(self.info(spaces))
    }

    // What it tells, where the stage lists these spaces. No memory is taken.
    pub(crate) fn info(&self, spaces: Spaces) -> StageInfo
        requires lists { (s : Session) × (self.now.session ≡ Some s)
            × (spaces ≡ sizes_of (spaces_in s s.snap.list)) }
        ensures { Tells self.now result }
    {
        let Some(session) = &self.session else {
            unreachable!();
        };
        StageInfo {
            session: session.number,
            incarnation: session.incarnation,
            plan: self.plan(session, spaces),
        }
    }

    // What is copied in the session's stage, which lists these spaces.
    fn plan(&self, session: &Session, spaces: Spaces) -> StagePlan
        requires stands { self.now.session ≡ Some session.now }
        requires lists { spaces ≡ sizes_of (spaces_in session.now session.now.snap.list) }
        ensures { result ≡ plan_of self.now session.now session.now.snap.list }
    {
        self.laws();
        let chunks = session.snapshot.count();
        let (checkpoint, lsn) = self.archived_range();
        let position = self.position();
        match session.stage() {
            Stage::FileCopy => StagePlan::FileCopy { chunks, spaces },
            Stage::PageCopy => StagePlan::PageCopy {
                chunks,
                position: session.snapshot.page_count() as u64,
                spaces,
            },
            Stage::RedoCopy => StagePlan::RedoCopy {
                chunks,
                checkpoint,
                lsn,
                position,
            },
            Stage::Done => StagePlan::Done {
                checkpoint,
                lsn,
                position,
            },
        }
    }

    // Where the redo that is copied begins and ends.
    fn archived_range(&self) -> (u64, u64)
        ensures { result ≡ range_of self.now.archive }
    {
        match (self.archive.first(), self.archive.end()) {
            (Some(start), Some(end)) => (start, end),
            _ => (0, 0),
        }
    }

    // How many commits there were at the last stop.
    fn position(&self) -> u64
        ensures { result ≡ position_of self.now.stop }
    {
        match self.stop {
            Some(stop) => stop.position,
            None => 0,
        }
    }
}
