//! Jobs, and the crew that runs each in a thread of its own. A crew's count rises only where a
//! thread could not be started.
ghost use Rattle.std.specs.Prelude.{◌≡◌, IfOk};
ghost use Rattle.clone_outside.specs.Causes.{HasCause};

use crate::Refusal;
use std::marker::Model;
use std::snapshot::Snapshot;
use std::thread;
use std::thread::{Promise, PromisedHandle, Threads};

/// A job, by the relation between it and its end.
pub trait Work {
    /// What a job gives back when it is done.
    type End;

    /// The end is one that the job may have.
    ghost ends: { Self → Self.End → Type 0 };
}

/// The promise that a thread gives an end of its job.
pub struct Ends<J> {
    job: Snapshot<J>,
}

impl<J> Drop for Ends<J> {
    fn drop(self) {
        let Self { job: _ } = self;
    }
}

impl<J: Work> Promise<J::End> for Ends<J> {
    ghost kept_by = { λ p end. J.ends p.job.value end };
}

/// A job that was started. Contracts see it as the job.
pub struct Ticket<J: Work> {
    thread: PromisedHandle<J::End, Ends<J>>,
}

impl<J: Work> Model for Ticket<J> {
    ghost Value = { J };

    ghost view = { λ t. t.thread.promise.job.value };
}

/// Starts jobs in threads, and counts those that could not be started. Contracts see it as that
/// count.
#[derive(Drop)]
pub struct Crew<H> {
    rt: H,
    faults: u64,
}

impl<H> Model for Crew<H> {
    ghost use Rattle.std.specs.Prelude.{ℕ};

    ghost Value = { ℕ };

    ghost view = { λ c. c.faults };
}

impl<H: Threads> Crew<H> {
    /// A crew that started no job, with no faults.
    pub fn new(rt: H) -> Crew<H>
        ensures { result ≡ 0 }
    {
        Crew { rt, faults: 0 }
    }

    /// How often a thread could not be started. The count never falls, and one that is at
    /// 2^64 - 1 counts as risen.
    pub fn faults(&self) -> u64
        ensures { result ≡ self.now }
    {
        self.faults
    }

    /// Starts a job by the closure that runs it. The closure has the job in it, and each of its
    /// results is an end of that job.
    ///
    /// The error is `Fault`: no thread could be started, the count of faults rose, and the closure
    /// was dropped with the job.
    pub fn start<J: Work + 'static, F: FnOnce() -> J::End + Send + Drop + 'static>(
        &mut self,
        job: Snapshot<J>,
        run: F,
    ) -> Result<Ticket<J>, Refusal>
    where
        J::End: Send + Drop + 'static,
        requires runs { F.pre run }
        requires ends { (end : J.End) → F.post run end → J.ends job.value end }
        ensures ticket { IfOk result (λ t. t ≡ job.value) }
        ensures cause { HasCause self.old self.new result }
    {
        match thread::spawn_with(&self.rt, Ends { job }, run) {
            Ok(thread) => Ok(Ticket { thread }),
            Err(_) => {
                self.faults = self.faults.saturating_add(1);
                Err(Refusal::Fault)
            }
        }
    }

    /// Waits for a job that was started, and gives its end.
    pub fn finish<J: Work>(&mut self, ticket: Ticket<J>) -> J::End
        ensures end { J.ends ticket result }
        ensures same { self.new ≡ self.old }
    {
        let Ticket { thread } = ticket;
        thread.join(&self.rt)
    }
}
