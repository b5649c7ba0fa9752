ghost use Rattle.std.specs.Prelude.{◌≡◌, None, Some, IsSome, IfOk, OnErr, MatchResult};
ghost use Rattle.clone_session.specs.CloneCauses.{hello_cause};
ghost use Rattle.clone_session.specs.CloneCalls.{AreFiles};
ghost use Rattle.clone_session.specs.Effects.{Becomes, Tells, opened, reopened};
ghost use Rattle.clone_session.specs.Cloning.{Session};

use crate::info::StageInfo;
use crate::session::Session;
use crate::{Cloning, Hello};
use clone_chunk::{CloneCause, Spaces};
use clone_snapshot::Snapshot;
use std::alloc::{AllocError, Global};

// How a session begins.
impl Cloning {
    /// What is against the beginning of a session, as its first cause.
    pub fn hello(&self, hello: &Hello) -> Result<(), CloneCause>
        ensures { MatchResult result (λ _. hello_cause self.now hello.now ≡ None)
            (λ cause. hello_cause self.now hello.now ≡ Some cause) }
    {
        self.check_hello(hello)
    }

    /// A session begins with the copy of the files of these spaces, each with its number of pages.
    /// The pages whose write is open are tracked from the start. The error is out of memory, and
    /// nothing has changed then.
    pub fn open(
        &mut self,
        alloc: Global,
        hello: &Hello,
        spaces: &[(u32, u32)],
        in_flight: &[(u32, u32)],
    ) -> Result<StageInfo, AllocError>
        requires free { self.old.session ≡ None }
        requires accepted { hello_cause self.old hello.now ≡ None }
        requires spaces { AreFiles spaces.now }
        ensures opened { IfOk result (λ info.
            Becomes self.new (opened hello.now spaces.now in_flight.now self.old)
            × Tells self.new info) }
        ensures refused { OnErr result (Becomes self.new self.old) }
    {
        let told = Spaces::of_pairs(alloc, spaces)?;
        let kept = Vec::from_slice(alloc, spaces)?;
        let snapshot = Snapshot::start(alloc, kept)?;
        self.tracker.start(in_flight)?;
        self.archive.clear();
        self.session = Some(Session {
            number: hello.session,
            incarnation: hello.incarnation,
            tasks: hello.tasks,
            version: hello.version,
            snapshot,
            created: Vec::new(alloc),
        });
        Ok(self.info(told))
    }

    /// A later incarnation begins the session that stands again, with no chunk finished. The number
    /// of tasks and the version stay. The error is out of memory, and nothing has changed then.
    pub fn reopen(&mut self, alloc: Global, hello: &Hello) -> Result<StageInfo, AllocError>
        requires stands { IsSome self.old.session }
        requires accepted { hello_cause self.old hello.now ≡ None }
        ensures opened { IfOk result (λ info. (s : Session) × (self.old.session ≡ Some s)
            × Becomes self.new (reopened hello.now s self.old) × Tells self.new info) }
        ensures refused { OnErr result (Becomes self.new self.old) }
    {
        let Some(session) = &mut self.session else {
            unreachable!();
        };
        let told = session.told_spaces(alloc)?;
        session.incarnation = hello.incarnation;
        session.snapshot.restart();
        Ok(self.info(told))
    }
}
