ghost use Rattle.std.specs.Prelude.{◌≡◌, ◌≢◌, ◌≤◌, ◌<◌, ℕ, List, Err, None, Some, IsSome, IfOk};
ghost use Rattle.std.specs.Prelude.{OnOk, OnErr, MatchResult, length};
ghost use Rattle.clone_base.specs.declared.limits.TheConstants.{SPACE_LIMIT};
ghost use Rattle.clone_session.specs.CloneCauses.{acknowledgement_cause, exit_cause, abandon_cause};
ghost use Rattle.clone_session.specs.CloneCauses.{donor_stage};
ghost use Rattle.clone_session.specs.CloneCalls.{Decided, Acknowledges, InFiles, IsMoment};
ghost use Rattle.clone_session.specs.Effects.{Becomes, Tells, left, acknowledged, files_ended};
ghost use Rattle.clone_session.specs.Effects.{pages_ended};
ghost use Rattle.clone_session.specs.Cloning.{Session};
ghost use Rattle.clone_snapshot.specs.StageLists.{Files, Pages};
ghost use Rattle.clone_session.specs.declared.refusal.CloneRefusal.TheVariants.{NoMemory};

use crate::created::created_since;
use crate::info::{StageInfo, Stop};
use crate::{Caller, CloneRefusal, Cloning};
use clone_chunk::{CloneCause, Spaces, Stage};
use clone_snapshot::{page_chunks, redo_chunks};
use std::alloc::{AllocError, Global};

/// The number of the stage in which files are copied.
const FILE_COPY: u8 = 1;

/// A moment of a donor.
#[derive(Clone, Copy, Debug, PartialEq, Eq)]
pub struct Moment {
    /// The LSN of the last checkpoint.
    pub checkpoint: u64,
    /// The LSN after the log's last byte.
    pub end: u64,
    /// How many commits there are.
    pub position: u64,
    /// How many drops of tables there are.
    pub drops: u64,
}

// How stages and sessions end.
impl Cloning {
    /// What is against an acknowledgement, as its first cause, where there are so many commits.
    pub fn acknowledgement(
        &self,
        caller: Caller,
        stage: u8,
        floor: u64,
        position: u64,
    ) -> Result<(), CloneCause>
        ensures { MatchResult result
            (λ _. acknowledgement_cause self.now caller stage floor position ≡ None)
            (λ cause. acknowledgement_cause self.now caller stage floor position ≡ Some cause) }
    {
        self.check_acknowledgement(caller, stage, floor, position)
    }

    /// A stage is acknowledged, when the donor has these files, each a space with its number of
    /// pages. That of the donor's stage ends it: the copy of files ends with the archive's start at
    /// the last checkpoint, and the copy of pages with the stop. That of the stage before it is
    /// answered as the one that ended it was. That of the copy of files alone takes memory.
    pub fn acknowledge(
        &mut self,
        alloc: Global,
        caller: Caller,
        stage: u8,
        floor: u64,
        now: Moment,
        files: &[(u32, u32)],
    ) -> Result<StageInfo, CloneRefusal>
        requires moment { IsMoment self.old now }
        requires files { length files.now ≤ SPACE_LIMIT }
        ensures acknowledges { Decided
            (acknowledgement_cause self.old caller stage floor now.position) self.old self.new
            result
            (Acknowledges now files.now caller.session stage self.old self.new) }
        ensures memory { result ≡ Err NoMemory → stage ≡ FILE_COPY }
    {
        self.check_acknowledgement(caller, stage, floor, now.position)?;
        if stage == FILE_COPY {
            return Ok(self.acknowledge_files(alloc, now, files)?);
        }
        self.laws();
        self.advance(stage, now);
        Ok(self.info(Spaces::new(alloc)))
    }

    // The copy of files is acknowledged, which this ends, or has ended before. The error is out of
    // memory, and nothing has changed then.
    fn acknowledge_files(
        &mut self,
        alloc: Global,
        now: Moment,
        files: &[(u32, u32)],
    ) -> Result<StageInfo, AllocError>
        requires stands { IsSome self.old.session }
        requires moment { IsMoment self.old now }
        requires files { length files.now ≤ SPACE_LIMIT }
        ensures ok { IfOk result (λ info. (s : Session) × (self.old.session ≡ Some s)
            × Becomes self.new (acknowledged now files.now FILE_COPY s self.old)
            × Tells self.new info) }
        ensures err { OnErr result (Becomes self.new self.old) }
    {
        let Some(session) = &self.session else {
            unreachable!();
        };
        if session.stage_number() != FILE_COPY {
            return self.current(alloc);
        }
        let created = created_since(alloc, session.snapshot.spaces(), files)?;
        let spaces = Spaces::of_pairs(alloc, &created)?;
        self.end_files(now, created)?;
        Ok(self.info(spaces))
    }

    // The copy of files ends, when these spaces have been created. The pages that were tracked are
    // copied next, and the redo is archived from the last checkpoint on. This makes the room for a
    // copy of redo that ends a ring's size after the checkpoint.
    fn end_files(&mut self, now: Moment, created: Vec<(u32, u32)>) -> Result<(), AllocError>
        requires stands { (s : Session) × (spaces : List (ℕ × ℕ)) × (self.old.session ≡ Some s)
            × (s.snap.list ≡ Files spaces) }
        requires moment { IsMoment self.old now }
        requires few { length created.items ≤ SPACE_LIMIT }
        ensures ok { OnOk result ((s : Session) × (self.old.session ≡ Some s)
            × Becomes self.new (files_ended now created.items s self.old)) }
        ensures err { OnErr result (Becomes self.new self.old) }
    {
        let chunks = redo_chunks(now.checkpoint, self.reach(now.checkpoint));
        let Some(session) = &mut self.session else {
            unreachable!();
        };
        session.snapshot.reserve(chunks)?;
        session.snapshot.reserve(page_chunks(self.tracker.most()))?;
        session.snapshot.page_copy(self.tracker.stop());
        session.created = created;
        self.archive.start(now.checkpoint);
        Ok(())
    }

    // A stage after the copy of files is over, where it is the one acknowledged. No memory is
    // taken.
    fn advance(&mut self, stage: u8, now: Moment)
        requires stands { IsSome self.old.session }
        requires later { stage ≢ FILE_COPY }
        requires moment { IsMoment self.old now }
        ensures { (s : Session) × (self.old.session ≡ Some s) × ((files : List (ℕ × ℕ)) →
            Becomes self.new (acknowledged now files stage s self.old)) }
    {
        let Some(session) = &mut self.session else {
            unreachable!();
        };
        if stage != session.stage_number() {
            return;
        }
        match session.stage() {
            Stage::PageCopy => self.end_pages(now),
            Stage::RedoCopy => session.snapshot.done(),
            Stage::FileCopy | Stage::Done => {}
        }
    }

    // The stop: archiving ends at the log's end, and the redo up to there is copied next.
    fn end_pages(&mut self, now: Moment)
        requires stands { (s : Session) × (pages : List (ℕ × ℕ)) × (self.old.session ≡ Some s)
            × (s.snap.list ≡ Pages pages) }
        requires moment { IsMoment self.old now }
        ensures { (s : Session) × (self.old.session ≡ Some s)
            × Becomes self.new (pages_ended now s self.old) }
    {
        let Some(start) = self.archive.first() else {
            unreachable!();
        };
        self.archive.stop(now.end);
        let Some(session) = &mut self.session else {
            unreachable!();
        };
        session.snapshot.redo_copy(start, now.end);
        self.stop = Some(Stop {
            session: session.number,
            position: now.position,
            drops: now.drops,
        });
    }

    /// The requester has left, and the session is gone. No memory is taken.
    pub fn exit(&mut self, caller: Caller) -> Result<(), CloneCause>
        ensures { MatchResult result
            (λ _. (exit_cause self.old caller ≡ None) × Becomes self.new (left self.old))
            (λ cause. (exit_cause self.old caller ≡ Some cause) × (self.new ≡ self.old)) }
    {
        self.check_exit(caller)?;
        self.leave();
        Ok(())
    }

    /// The session of this number is given up. No memory is taken.
    pub fn abandon(&mut self, session: u64) -> Result<(), CloneCause>
        ensures { MatchResult result
            (λ _. (abandon_cause self.old session ≡ None) × Becomes self.new (left self.old))
            (λ cause. (abandon_cause self.old session ≡ Some cause) × (self.new ≡ self.old)) }
    {
        self.session_of(session)?;
        self.leave();
        Ok(())
    }

    // Nothing is kept for a session any more.
    fn leave(&mut self)
        ensures { Becomes self.new (left self.old) }
    {
        self.session = None;
        let _ = self.tracker.stop();
        self.archive.clear();
    }
}
