ghost use Rattle.std.specs.Prelude.{◌≡◌, ◌≢◌, ℕ, Some, false};
ghost use Rattle.clone_session.specs.Cloning.{Session};
ghost use Rattle.clone_tasks.specs.Tables.{incarnation_of, is_done};
ghost use Rattle.clone_recipient.specs.Receptions.{Reception};
ghost use Rattle.clone_network.specs.Networks.{Network, StepsDonor};
ghost use Rattle.clone_network.specs.declared.donor_step.DonorStep.{DonorStep};
ghost use Rattle.clone_engine.specs.Donor.{Donor};
ghost use Rattle.clone_told.specs.Told.{gives};
ghost use Rattle.clone_paired.specs.Closing.{Closes};
ghost use Rattle.clone_paired.specs.Lines.{connection_of};
ghost use Rattle.clone_paired.specs.Own.{own_session};
ghost use Rattle.clone_paired.specs.Paired.{IsPaired};

/// Each step of a donor's end of a connection that no task has any more keeps a clone paired. While
/// stages are copied and the donor has the present incarnation, such a step leaves the session.
pub fn late_ends()
    ensures pairs { (d t : Donor) (r : Reception) (n m : Network) (number : ℕ)
        (answer : DonorStep) → IsPaired (own_session r.table.session d.cloning) r n
        → StepsDonor gives d t number n m answer
        → ((k : ℕ) → connection_of n k ≢ Some number)
        → IsPaired (own_session r.table.session t.cloning) r m }
    ensures stays { (d t : Donor) (r : Reception) (n m : Network) (number : ℕ)
        (answer : DonorStep) (s : Session) → is_done r.table.phase ≡ false
        → IsPaired (own_session r.table.session d.cloning) r n
        → StepsDonor gives d t number n m answer
        → ((k : ℕ) → connection_of n k ≢ Some number)
        → own_session r.table.session d.cloning ≡ Some s
        → s.incarnation ≡ incarnation_of r.table
        → own_session r.table.session t.cloning ≡ own_session r.table.session d.cloning }
{}

/// A donor's end that closes its connection, since there is no memory or the disk failed, or finds
/// it lost, keeps a clone paired where the session is as it was, also within an EXECUTE.
pub fn closing_ends()
    ensures { (d t : Donor) (r : Reception) (n m : Network) (number : ℕ) (answer : DonorStep)
        → IsPaired (own_session r.table.session d.cloning) r n
        → StepsDonor gives d t number n m answer → Closes answer
        → own_session r.table.session t.cloning ≡ own_session r.table.session d.cloning
        → IsPaired (own_session r.table.session t.cloning) r m }
{}
