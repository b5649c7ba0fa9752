ghost use Rattle.std.specs.Prelude.{IsSome, List};
ghost use Rattle.clone_outside.specs.Disk.{DiskImage};
ghost use Rattle.clone_outside.specs.Mark.{IsEnd};
ghost use Rattle.clone_outside.specs.declared.mark.CloneEnd.{CloneEnd};
ghost use Rattle.clone_session.specs.Cloning.{IsCloning};
ghost use Rattle.clone_engine.specs.Acts.{Act, Runs};
ghost use Rattle.clone_engine.specs.Donor.{Donor, IsDonor};
ghost use Rattle.clone_engine.specs.Laid.{HoldsMoment, IsComplete};
ghost use Rattle.clone_engine.specs.Taken.{IsTaken, Taken};

/// What a clone takes of a donor over a run. It goes on beside the pages, act by act; and once the
/// session has come to its stop, whatever has been laid on a requester's disk of it, any one answer
/// of each block, recovers to the donor's history at the stop, whatever acts there were meanwhile.
pub fn run_laws()
    ensures goes_on { (d t : Donor) (before taken : Taken) (acts : List Act) → IsTaken d before
        → Runs d before acts t taken → IsTaken t taken }
    ensures one_moment { (d t : Donor) (before taken : Taken) (acts : List Act) (end : CloneEnd)
        (m : DiskImage) → IsTaken d before → Runs d before acts t taken → IsDonor t
        → IsCloning t.cloning → IsSome t.engine.disk.told → IsEnd end
        → IsComplete t taken end m → HoldsMoment taken end m }
{}
