ghost use Rattle.std.specs.Prelude.{◌≡◌, None, Some, IfOk, IfSome, MatchResult, length, option_map};
ghost use Rattle.std.specs.Prelude.{slice_index};
ghost use Rattle.clone_snapshot.specs.StageLists.{block_of};
ghost use Rattle.clone_session.specs.CloneCalls.{Answers, Claims, HasClaimed, IsBlockOf, IsInLog};
ghost use Rattle.clone_session.specs.CloneCalls.{IsInArchive, OnSession, part_of, redo_in};
ghost use Rattle.clone_session.specs.CloneCauses.{archive_behind, block_cause, claim_cause};
ghost use Rattle.clone_session.specs.CloneCauses.{kept_cause, not_claimed, unclaimed};

use crate::causes::{check_incarnation, check_stage};
use crate::session::Session;
use crate::{Caller, Cloning};
use clone_chunk::{CloneCause, is_kept};
use clone_snapshot::{PageBlock, RedoBlock, Snapshot};

/// What a block is made of.
#[derive(Clone, Copy)]
pub enum BlockWork {
    /// These pages.
    Pages(PageBlock),
    /// These bytes of the redo.
    Redo(RedoBlock),
}

// The chunks of a stage, and their blocks.
impl Cloning {
    /// Whether a claim would be carried out. Nothing changes, and no memory is taken.
    pub fn execute(&self, caller: Caller, stage: u8) -> Result<(), CloneCause>
        ensures { MatchResult result (λ _. claim_cause self.now caller stage ≡ None)
            (λ cause. claim_cause self.now caller stage ≡ Some cause) }
    {
        self.check_claim(caller, stage)
    }

    /// The least chunk that is neither claimed nor finished, which is the task's from then on, or
    /// none exactly where there is no such chunk. No memory is taken.
    pub fn claim(&mut self, caller: Caller, stage: u8) -> Result<Option<u32>, CloneCause>
        ensures claims { Claims caller stage self.old self.new result }
    {
        self.check_claim(caller, stage)?;
        let Some(session) = &mut self.session else {
            unreachable!();
        };
        Ok(session.snapshot.claim(caller.task))
    }

    /// The mask of the kept blocks of a claimed chunk: bit b, of value 2^b, is block b. No memory
    /// is taken.
    pub fn kept(&self, caller: Caller, stage: u8, chunk: u32) -> Result<u8, CloneCause>
        ensures { MatchResult result
            (λ mask. (kept_cause self.now caller stage chunk ≡ None)
            × OnSession self.now caller.session (λ s. mask ≡ slice_index s.snap.kept chunk))
            (λ cause. kept_cause self.now caller stage chunk ≡ Some cause) }
    {
        let session = self.session_of(caller.session)?;
        check_incarnation(session, caller.incarnation)?;
        check_stage(session, stage)?;
        check_claimed(session, caller.task, chunk)?;
        Ok(session.snapshot.kept(chunk))
    }

    /// What a block of a claimed chunk is made of, which isn't kept. No memory is taken.
    pub fn block(
        &self,
        caller: Caller,
        stage: u8,
        chunk: u32,
        block: u8,
    ) -> Result<BlockWork, CloneCause>
        ensures { MatchResult result
            (λ work. (block_cause self.now caller stage chunk block ≡ None)
            × IsBlockOf self.now caller.session chunk block work)
            (λ cause. block_cause self.now caller stage chunk block ≡ Some cause) }
    {
        let session = self.session_of(caller.session)?;
        check_incarnation(session, caller.incarnation)?;
        check_stage(session, stage)?;
        let work = claimed_block(session, caller.task, chunk, block)?;
        self.check_archived(&work)?;
        session.snapshot.laws();
        self.laws();
        Ok(work)
    }

    // Whether a block of redo ends after what is archived.
    fn check_archived(&self, work: &BlockWork) -> Result<(), CloneCause>
        requires { IsInLog work.now }
        ensures { MatchResult result
            (λ _. archive_behind self.now.archive (Some (part_of work.now)) ≡ None)
            (λ cause. archive_behind self.now.archive (Some (part_of work.now)) ≡ Some cause) }
    {
        let (Some(archived), BlockWork::Redo(redo)) = (self.archive.archived(), work) else {
            return Ok(());
        };
        let until = redo.from + redo.length as u64;
        if archived < until {
            return Err(CloneCause::ArchiveBehind { archived, until });
        }
        Ok(())
    }

    /// Fills the slice with the bytes of a block of redo.
    pub fn read_redo(&self, redo: RedoBlock, into: &mut [u8])
        requires archived { IsInArchive self.now.archive redo }
        requires length { length into.old ≡ redo.length }
        ensures { into.new ≡ redo_in self.now.archive redo }
    {
        self.archive.laws();
        match self.archive.read(redo.from, into) {
            Ok(()) => {}
            Err(_) => unreachable!(),
        }
    }

    /// A block of a claimed chunk was answered. The answer is whether it was the chunk's last that
    /// isn't kept, and then the chunk is finished. No memory is taken.
    pub fn answered(&mut self, caller: Caller, chunk: u32, block: u8) -> bool
        requires claimed { HasClaimed caller chunk self.old }
        ensures { Answers caller chunk block self.old self.new result }
    {
        let Some(session) = &mut self.session else {
            unreachable!();
        };
        if !session.snapshot.is_last(chunk, block) {
            return false;
        }
        session.snapshot.finish(caller.task, chunk)
    }
}

// Whether the task hasn't claimed a chunk.
fn check_claimed(session: &Session, task: u8, chunk: u32) -> Result<(), CloneCause>
    ensures { MatchResult result (λ _. unclaimed session.now task chunk ≡ None)
        (λ cause. unclaimed session.now task chunk ≡ Some cause) }
{
    if session.snapshot.is_claimed_by(task, chunk) {
        Ok(())
    } else {
        Err(CloneCause::NotClaimed)
    }
}

// What a block that isn't kept is made of, of a chunk that the task has claimed.
fn claimed_block(
    session: &Session,
    task: u8,
    chunk: u32,
    block: u8,
) -> Result<BlockWork, CloneCause>
    ensures claimed { MatchResult result
        (λ work. (not_claimed session.now task chunk block ≡ None)
        × (block_of session.now.snap.list chunk block ≡ Some (part_of work)))
        (λ cause. not_claimed session.now task chunk block ≡ Some cause) }
    ensures in_log { IfOk result IsInLog }
{
    let kept = is_kept(session.snapshot.kept(chunk), block);
    let sent = session.snapshot.is_claimed_by(task, chunk) && !kept;
    match block_work(&session.snapshot, chunk, block) {
        Some(work) if sent => Ok(work),
        _ => Err(CloneCause::NotClaimed),
    }
}

// What a block is made of, if there is such a block.
fn block_work(snapshot: &Snapshot, chunk: u32, block: u8) -> Option<BlockWork>
    ensures work { option_map part_of result ≡ block_of snapshot.now.list chunk block }
    ensures in_log { IfSome result IsInLog }
{
    if let Some(pages) = snapshot.page_block(chunk, block) {
        return Some(BlockWork::Pages(pages));
    }
    snapshot.laws();
    let redo = snapshot.redo_block(chunk, block)?;
    Some(BlockWork::Redo(redo))
}
