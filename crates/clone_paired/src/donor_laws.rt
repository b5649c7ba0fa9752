ghost use Rattle.std.specs.Prelude.{◌≡◌, ℕ, false, true};
ghost use Rattle.std.specs.Option.{ForSome};
ghost use Rattle.clone_snapshot.specs.Snaps.{IsSnap};
ghost use Rattle.clone_session.specs.Cloning.{IsCloning};
ghost use Rattle.clone_recipient.specs.Receptions.{Reception};
ghost use Rattle.clone_network.specs.Connections.{Connection, StepsEnd, is_open};
ghost use Rattle.clone_network.specs.Networks.{Network};
ghost use Rattle.clone_network.specs.declared.donor_step.DonorStep.{DonorStep};
ghost use Rattle.clone_engine.specs.Acts.{Act, Acts};
ghost use Rattle.clone_engine.specs.Donor.{Donor, IsDonor};
ghost use Rattle.clone_told.specs.Told.{gives};
ghost use Rattle.clone_joined.specs.Strangers.{acts_in};
ghost use Rattle.clone_paired.specs.Own.{ActsAside, own_session};
ghost use Rattle.clone_paired.specs.Paired.{IsPaired};
ghost use Rattle.clone_paired.specs.Quiet.{GoesOn};
ghost use Rattle.clone_paired.specs.Strangers.{IsBetween, ServesOther};

/// An end of a donor that serves an EXECUTE never rests: redo that isn't archived yet is archived
/// by the step that reads it.
pub fn service_goes_on()
    ensures { (d : Donor) (n : Network) → IsDonor d → IsCloning d.cloning
        → ForSome d.cloning.session (λ s. IsSnap s.snap.list s.snap.chunks s.snap.room)
        → GoesOn gives d n }
{}

/// An act of the donor that isn't one of the session leaves it, and so keeps a clone paired.
pub fn acts_aside()
    ensures leaves { (number : ℕ) (d t : Donor) (act : Act) → Acts act d t
        → ActsAside number act → own_session number t.cloning ≡ own_session number d.cloning }
    ensures pairs { (d t : Donor) (act : Act) (r : Reception) (n : Network) → Acts act d t
        → ActsAside r.table.session act → IsPaired (own_session r.table.session d.cloning) r n
        → IsPaired (own_session r.table.session t.cloning) r n }
{}

/// A step of a stranger's end, by which nobody acts in the session and which serves no EXECUTE of
/// it, leaves the session as it was, and serves none of it then. So it keeps a clone paired.
pub fn strangers_leave()
    ensures leaves { (number : ℕ) (d t : Donor) (at after : Connection) (says : DonorStep)
        → StepsEnd gives d t at after says → acts_in number d t at says ≡ false
        → is_open at ≡ true → IsBetween at.doing → ServesOther number at.doing
        → (own_session number t.cloning ≡ own_session number d.cloning)
        × ServesOther number after.doing }
    ensures pairs { (d t : Donor) (r : Reception) (n : Network) (at after : Connection)
        (says : DonorStep) → StepsEnd gives d t at after says
        → acts_in r.table.session d t at says ≡ false → is_open at ≡ true
        → IsBetween at.doing → ServesOther r.table.session at.doing
        → IsPaired (own_session r.table.session d.cloning) r n
        → IsPaired (own_session r.table.session t.cloning) r n }
{}
