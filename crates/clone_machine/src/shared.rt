ghost use Rattle.std.specs.Prelude.{◌≡◌, false};
ghost use Rattle.clone_machine.specs.Sharing.{Steps};

use crate::{JobAnswer, JobCall};
use clone_calls::Answers;
use clone_donor::Donor;
use clone_outside::PageDisk;
use std::alloc::Global;
use std::marker::Model;

/// A donor that jobs share, and whether the run that they are of is to end. What the calls of the
/// donor take of memory, they take from the allocator that is kept here.
pub struct SharedDonor<D: PageDisk> {
    donor: Donor<D>,
    halted: bool,
    alloc: Global,
}

impl<D: PageDisk> Model for SharedDonor<D> {
    ghost use Rattle.std.specs.Coded.{codes};
    ghost use Rattle.clone_track.specs.TrackedPages.{tracked_pages_code};
    ghost use Rattle.clone_engine.specs.Codes.{engine_code};
    ghost use Rattle.clone_machine.specs.Sharing.{SharedDonor};

    ghost Value = { SharedDonor };

    ghost coded = { Prim.hlevel (codes, engine_code, tracked_pages_code) };

    ghost view = { λ s. record { donor = s.donor; halted = s.halted } };
}

impl<D: PageDisk> SharedDonor<D> {
    /// The donor of a run that goes on.
    pub fn new(alloc: Global, donor: Donor<D>) -> SharedDonor<D>
        ensures { result ≡ record { donor = donor; halted = false } }
    {
        SharedDonor {
            donor,
            halted: false,
            alloc,
        }
    }

    /// Gives the donor back.
    pub fn into_donor(self) -> Donor<D>
        ensures { result ≡ self.donor }
    {
        let SharedDonor {
            donor,
            halted: _,
            alloc: _,
        } = self;
        donor
    }

    /// Carries a call out.
    pub(crate) fn carry_out(&mut self, call: JobCall) -> JobAnswer
        ensures { Steps self.old call result self.new }
    {
        match call {
            JobCall::Halt => {
                self.halted = true;
                JobAnswer::Halt
            }
            JobCall::Halted => JobAnswer::Halted(self.halted),
            JobCall::Look => JobAnswer::Look(self.donor.look()),
            JobCall::Donor { call } => JobAnswer::Donor(self.donor.answer(self.alloc, call)),
        }
    }
}

impl<D: PageDisk + Drop> Drop for SharedDonor<D> {
    fn drop(self) {
        let (_engine, _disk) = self.into_donor().into_parts();
    }
}
