ghost use Rattle.std.specs.Prelude.{◌≡◌, None, Some, MatchResult};
ghost use Rattle.clone_session.specs.CloneCauses.{session_of, stale, not_later, other_stage};
ghost use Rattle.clone_session.specs.CloneCauses.{hello_cause, standing_cause, claim_cause};
ghost use Rattle.clone_session.specs.CloneCauses.{attach_cause, reinit_cause, reinit_blocks_cause};
ghost use Rattle.clone_session.specs.CloneCauses.{acknowledgement_cause, exit_cause};
ghost use Rattle.clone_session.specs.CloneCauses.{is_acknowledged, out_of_stage};
ghost use Rattle.clone_chunk.specs.declared.cause.CloneCause.TheVariants.{NoSuchSession};

use crate::limits::{BLOCKS_VERSION, VERSION};
use crate::session::Session;
use crate::{Caller, Cloning, Hello};
use clone_base::{MOST_TASKS, PAGE_SIZE};
use clone_chunk::{CloneCause, Stage};

// What is against a call, as its first cause.
impl Cloning {
    // The session of this number.
    pub(crate) fn session_of(&self, number: u64) -> Result<&Session, CloneCause>
        ensures { MatchResult result (λ s. session_of self.now number ≡ Some s.now)
            (λ cause. (session_of self.now number ≡ None) × (cause ≡ NoSuchSession)) }
    {
        match &self.session {
            Some(session) if session.number == number => Ok(session),
            _ => Err(CloneCause::NoSuchSession),
        }
    }

    // Of the beginning of a session.
    pub(crate) fn check_hello(&self, hello: &Hello) -> Result<(), CloneCause>
        ensures { MatchResult result (λ _. hello_cause self.now hello.now ≡ None)
            (λ cause. hello_cause self.now hello.now ≡ Some cause) }
    {
        if hello.version != VERSION && hello.version != BLOCKS_VERSION {
            return Err(CloneCause::VersionMismatch {
                theirs: u64::from(hello.version),
            });
        }
        if hello.page_size != PAGE_SIZE as u32 {
            return Err(CloneCause::PageSizeMismatch {
                theirs: u64::from(hello.page_size),
            });
        }
        if hello.compress {
            return Err(CloneCause::CompressionRefused);
        }
        if hello.tasks == 0 || MOST_TASKS < hello.tasks as usize {
            return Err(CloneCause::TasksOutOfRange {
                tasks: u64::from(hello.tasks),
            });
        }
        check_standing(&self.session, hello)
    }

    // Of a task that joins the session.
    pub(crate) fn check_attach(&self, caller: Caller) -> Result<(), CloneCause>
        ensures { MatchResult result (λ _. attach_cause self.now caller ≡ None)
            (λ cause. attach_cause self.now caller ≡ Some cause) }
    {
        let session = self.session_of(caller.session)?;
        if caller.incarnation != session.incarnation {
            return Err(CloneCause::Stale {
                incarnation: u64::from(session.incarnation),
            });
        }
        if session.tasks <= caller.task {
            return Err(CloneCause::TasksOutOfRange {
                tasks: u64::from(caller.task),
            });
        }
        Ok(())
    }

    // Of a later incarnation that joins it.
    pub(crate) fn check_reinit(&self, caller: Caller, stage: u8) -> Result<(), CloneCause>
        ensures { MatchResult result (λ _. reinit_cause self.now caller stage ≡ None)
            (λ cause. reinit_cause self.now caller stage ≡ Some cause) }
    {
        let session = self.session_of(caller.session)?;
        check_later(session, caller.incarnation)?;
        check_copied(session, stage)
    }

    // Of one that tells its blocks.
    pub(crate) fn check_reinit_blocks(&self, caller: Caller, stage: u8) -> Result<(), CloneCause>
        ensures { MatchResult result (λ _. reinit_blocks_cause self.now caller stage ≡ None)
            (λ cause. reinit_blocks_cause self.now caller stage ≡ Some cause) }
    {
        let session = self.session_of(caller.session)?;
        check_later(session, caller.incarnation)?;
        if session.version == VERSION {
            return Err(CloneCause::VersionMismatch {
                theirs: u64::from(BLOCKS_VERSION),
            });
        }
        check_copied(session, stage)
    }

    // Of a claim.
    pub(crate) fn check_claim(&self, caller: Caller, stage: u8) -> Result<(), CloneCause>
        ensures { MatchResult result (λ _. claim_cause self.now caller stage ≡ None)
            (λ cause. claim_cause self.now caller stage ≡ Some cause) }
    {
        let session = self.session_of(caller.session)?;
        check_incarnation(session, caller.incarnation)?;
        check_stage(session, stage)
    }

    // Of an acknowledgement, where there are so many commits.
    pub(crate) fn check_acknowledgement(
        &self,
        caller: Caller,
        stage: u8,
        floor: u64,
        position: u64,
    ) -> Result<(), CloneCause>
        ensures { MatchResult result
            (λ _. acknowledgement_cause self.now caller stage floor position ≡ None)
            (λ cause. acknowledgement_cause self.now caller stage floor position ≡ Some cause) }
    {
        let session = self.session_of(caller.session)?;
        check_incarnation(session, caller.incarnation)?;
        check_copied(session, stage)?;
        let donor = session.stage_number();
        let count = session.snapshot.left();
        if stage == donor && count != 0 {
            return Err(CloneCause::ChunksLeft {
                count: u64::from(count),
            });
        }
        if stage == 2 && donor == 2 && position < floor {
            return Err(CloneCause::FloorAhead { floor, position });
        }
        Ok(())
    }

    // Of an exit.
    pub(crate) fn check_exit(&self, caller: Caller) -> Result<(), CloneCause>
        ensures { MatchResult result (λ _. exit_cause self.now caller ≡ None)
            (λ cause. exit_cause self.now caller ≡ Some cause) }
    {
        let session = self.session_of(caller.session)?;
        check_incarnation(session, caller.incarnation)
    }
}

// What the session that stands has against the beginning of one.
fn check_standing(session: &Option<Session>, hello: &Hello) -> Result<(), CloneCause>
    ensures { MatchResult result (λ _. standing_cause session.now hello.now ≡ None)
        (λ cause. standing_cause session.now hello.now ≡ Some cause) }
{
    let Some(session) = session else {
        return Ok(());
    };
    if session.number != hello.session {
        return Err(CloneCause::Busy {
            session: session.number,
        });
    }
    check_later(session, hello.incarnation)?;
    let donor = session.stage_number();
    if donor != 1 {
        return Err(CloneCause::StageMismatch {
            donor: u64::from(donor),
            recipient: 1,
        });
    }
    Ok(())
}

// Whether an incarnation is over.
pub(crate) fn check_incarnation(session: &Session, incarnation: u32) -> Result<(), CloneCause>
    ensures { MatchResult result (λ _. stale session.now incarnation ≡ None)
        (λ cause. stale session.now incarnation ≡ Some cause) }
{
    if incarnation < session.incarnation {
        return Err(CloneCause::Stale {
            incarnation: u64::from(session.incarnation),
        });
    }
    Ok(())
}

// Whether an incarnation is no later one than that of the session.
fn check_later(session: &Session, incarnation: u32) -> Result<(), CloneCause>
    ensures { MatchResult result (λ _. not_later session.now incarnation ≡ None)
        (λ cause. not_later session.now incarnation ≡ Some cause) }
{
    if incarnation <= session.incarnation {
        return Err(CloneCause::Stale {
            incarnation: u64::from(session.incarnation),
        });
    }
    Ok(())
}

// Whether the donor is in another stage.
pub(crate) fn check_stage(session: &Session, stage: u8) -> Result<(), CloneCause>
    ensures { MatchResult result (λ _. other_stage session.now stage ≡ None)
        (λ cause. other_stage session.now stage ≡ Some cause) }
{
    let donor = session.stage_number();
    if stage != donor {
        return Err(CloneCause::StageMismatch {
            donor: u64::from(donor),
            recipient: u64::from(stage),
        });
    }
    Ok(())
}

// Whether a stage isn't one in which something is copied, the donor's or the one before it.
fn check_copied(session: &Session, stage: u8) -> Result<(), CloneCause>
    ensures { MatchResult result (λ _. out_of_stage session.now stage ≡ None)
        (λ cause. out_of_stage session.now stage ≡ Some cause) }
{
    if !is_acknowledged(session, stage) {
        return Err(CloneCause::StageMismatch {
            donor: u64::from(session.stage_number()),
            recipient: u64::from(stage),
        });
    }
    Ok(())
}

// Whether a stage may be acknowledged.
fn is_acknowledged(session: &Session, stage: u8) -> bool
    ensures { result ≡ is_acknowledged session.now stage }
{
    let donor = session.stage_number();
    matches!(stage, 1..=3) && (stage == donor || stage + 1 == donor)
}
