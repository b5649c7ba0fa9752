//! The record of a connection.
ghost use Rattle.std.specs.Prelude.{◌≡◌, IfNone, OnSome};
ghost use Rattle.clone_runs.specs.Desk.{waits_for};
ghost use Rattle.clone_desk.specs.Records.{end_waiting, handed_out, waiting_of, with_end};

use clone_outside::Side;
use std::mem;
use std::snapshot::Snapshot;

/// Where the donor's end of a connection is.
#[derive(Drop)]
pub enum DonorEnd<L> {
    /// At the desk, and it waits to be handed out.
    Waits(L),
    /// It was handed out.
    Out,
    /// It was given back.
    Back(L),
}

/// A connection: the task that made it, and the ends that are at the desk.
#[derive(Drop)]
pub struct Record<L> {
    pub task: u8,
    /// The requester's end as it was made. It names the connection, in contracts alone.
    pub about: Snapshot<L>,
    pub donor: DonorEnd<L>,
    pub requester: Option<L>,
}

impl<L: Drop> Record<L> {
    /// Whether the donor's end waits, for this task.
    pub(crate) fn waits_for(&self, task: u8) -> bool
        ensures { result ≡ waits_for task (waiting_of self.now) }
    {
        self.task == task && matches!(self.donor, DonorEnd::Waits(_))
    }

    /// The donor's end, where it waits.
    pub(crate) fn hand_out(&mut self) -> Option<L>
        ensures end { result ≡ end_waiting self.old.donor }
        ensures out { OnSome result (self.new ≡ handed_out self.old) }
        ensures none { IfNone result (self.new ≡ self.old) }
    {
        match mem::replace(&mut self.donor, DonorEnd::Out) {
            DonorEnd::Waits(end) => Some(end),
            kept => {
                self.donor = kept;
                None
            }
        }
    }

    /// Keeps an end of this side. One that is here already stays.
    pub(crate) fn keep(&mut self, side: Side, end: L)
        ensures { self.new ≡ with_end side end self.old }
    {
        match side {
            Side::Donor => {
                if let DonorEnd::Out = self.donor {
                    self.donor = DonorEnd::Back(end);
                }
            }
            Side::Requester => {
                if self.requester.is_none() {
                    self.requester = Some(end);
                }
            }
        }
    }
}
