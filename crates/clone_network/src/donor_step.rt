//! A step of the donor's end of a connection.
ghost use Rattle.std.specs.Prelude.{◌≡◌};
ghost use Rattle.clone_network.specs.Connections.{Serves, StepsBy, finds_loss, is_idle};
ghost use Rattle.clone_network.specs.Connections.{is_open, is_serving, reaches_task, was_refused};

use crate::Connection;
use clone_calls::Answers;
use clone_serve::{Doing, ServeAnswer};
use std::alloc::Global;

/// What came of a step of the donor's end.
#[derive(Drop)]
pub enum DonorStep {
    /// What it served.
    Served(ServeAnswer),
    /// It has found that the connection is lost, or that its task has given it up, and its loop has
    /// ended.
    Lost,
}

impl Connection {
    /// A step of the donor's end. Where its loop has ended nothing is done. What it sends on a
    /// connection that was cut or given up reaches nobody.
    pub fn step<A: Answers>(&mut self, alloc: Global, donor: &mut A) -> DonorStep
        ensures { StepsBy (is_open self.old) A.gives donor.old donor.new self.old self.new result }
    {
        if !self.is_open() {
            return DonorStep::Served(ServeAnswer::Idle);
        }
        let doing = self.end.doing();
        let says = self.serve(alloc, donor);
        self.is_left = self.finds_loss(doing, &says);
        if self.is_left {
            return DonorStep::Lost;
        }
        DonorStep::Served(says)
    }

    // The end takes its step. What it sends may reach nobody.
    fn serve<A: Answers>(&mut self, alloc: Global, donor: &mut A) -> ServeAnswer
        ensures { Serves A.gives donor.old donor.new self.old self.new result }
    {
        if self.reaches_task() {
            return self
                .end
                .step(alloc, donor, &mut self.to_donor, &mut self.to_task);
        }
        let mut unread = Vec::new(alloc);
        self.end.step(alloc, donor, &mut self.to_donor, &mut unread)
    }

    // Whether what the donor sends reaches the task.
    fn reaches_task(&self) -> bool
        ensures { result ≡ reaches_task self.now }
    {
        self.is_held && !self.is_cut
    }

    // Whether a loss is found by a step that began while the end was doing this.
    fn finds_loss(&self, doing: Doing, says: &ServeAnswer) -> bool
        ensures { result ≡ finds_loss (record self.now { doing = doing }) says.now }
    {
        if is_serving(doing) {
            self.is_cut && !was_refused(says)
        } else {
            is_idle(says) && (self.is_cut || !self.is_held)
        }
    }
}

fn is_serving(doing: Doing) -> bool
    ensures { result ≡ is_serving doing }
{
    matches!(doing, Doing::Serving { .. })
}

fn was_refused(says: &ServeAnswer) -> bool
    ensures { result ≡ was_refused says.now }
{
    matches!(
        says,
        ServeAnswer::Refused(_) | ServeAnswer::DiskFault | ServeAnswer::NoMemory
    )
}

fn is_idle(says: &ServeAnswer) -> bool
    ensures { result ≡ is_idle says.now }
{
    matches!(says, ServeAnswer::Idle)
}
