ghost use Rattle.std.specs.Prelude.{◌≡◌, [], Some, IfOk, OnErr};
ghost use Rattle.clone_chunk.specs.Partials.{ArePartials};
ghost use Rattle.clone_session.specs.CloneCalls.{Decided, Reinits, Rejoins};
ghost use Rattle.clone_session.specs.CloneCauses.{attach_cause, reinit_cause, reinit_blocks_cause};
ghost use Rattle.clone_session.specs.Cloning.{Session};
ghost use Rattle.clone_session.specs.Effects.{Becomes, Tells};
ghost use Rattle.clone_session.specs.declared.limits.TheConstants.{VERSION};

use crate::{Caller, CloneRefusal, Cloning, StageInfo};
use clone_chunk::PartialChunk;
use std::alloc::{AllocError, Global};

// How tasks join the session that stands, and later incarnations.
impl Cloning {
    /// A task joins the session, and is told the stage that it has come to. Nothing changes.
    pub fn attach(&self, alloc: Global, caller: Caller) -> Result<StageInfo, CloneRefusal>
        ensures attaches { Decided (attach_cause self.now caller) self.now self.now result
            (Tells self.now) }
    {
        self.check_attach(caller)?;
        Ok(self.current(alloc)?)
    }

    /// A later incarnation joins the session, which stays in its stage. Where the requester is in
    /// it too, the chunks that have their bit are finished. Where it is in the stage before, none
    /// is. No claim stays.
    pub fn reinit(
        &mut self,
        alloc: Global,
        caller: Caller,
        stage: u8,
        bitmap: &[u8],
    ) -> Result<StageInfo, CloneRefusal>
        ensures reinits { Decided (reinit_cause self.old caller stage) self.old self.new result
            (Reinits caller stage bitmap.now [] self.old self.new) }
    {
        self.check_reinit(caller, stage)?;
        Ok(self.rejoin(alloc, caller.incarnation, stage, bitmap, &[])?)
    }

    /// A later incarnation joins the session as with `reinit`. Of a chunk that isn't finished, the
    /// blocks in its mask are kept, and one whose mask has each of its blocks is finished.
    pub fn reinit_blocks(
        &mut self,
        alloc: Global,
        caller: Caller,
        stage: u8,
        bitmap: &[u8],
        partials: &[PartialChunk],
    ) -> Result<StageInfo, CloneRefusal>
        requires partials { ArePartials partials.now }
        ensures reinits { Decided (reinit_blocks_cause self.old caller stage) self.old self.new
            result (Reinits caller stage bitmap.now partials.now self.old self.new) }
    {
        self.check_reinit_blocks(caller, stage)?;
        Ok(self.rejoin(alloc, caller.incarnation, stage, bitmap, partials)?)
    }

    // The session has this incarnation, with what a requester in this stage has of the chunks. The
    // error is out of memory, and nothing has changed then.
    fn rejoin(
        &mut self,
        alloc: Global,
        incarnation: u32,
        stage: u8,
        bitmap: &[u8],
        partials: &[PartialChunk],
    ) -> Result<StageInfo, AllocError>
        requires partials { ArePartials partials.now }
        requires stands { (s : Session) × (self.old.session ≡ Some s)
            × (s.version ≡ VERSION → partials.now ≡ []) }
        ensures rejoins { IfOk result (λ info. (s : Session) × (self.old.session ≡ Some s)
            × Rejoins incarnation stage bitmap.now partials.now s self.old self.new
            × Tells self.new info) }
        ensures refused { OnErr result (Becomes self.new self.old) }
    {
        let Some(session) = &mut self.session else {
            unreachable!();
        };
        let spaces = session.told_spaces(alloc)?;
        session.incarnation = incarnation;
        session.reset(stage, bitmap, partials);
        Ok(self.info(spaces))
    }
}
