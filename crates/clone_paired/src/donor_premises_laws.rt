ghost use Rattle.std.specs.Prelude.{◌≡◌, ℕ, IsSome, None, true};
ghost use Rattle.std.specs.Option.{ForSome};
ghost use Rattle.clone_snapshot.specs.Snaps.{IsSnap};
ghost use Rattle.clone_session.specs.Effects.{Tells};
ghost use Rattle.clone_session.specs.declared.info.StageInfo.{StageInfo};
ghost use Rattle.clone_recipient.specs.Expecting.{fits};
ghost use Rattle.clone_network.specs.Networks.{Network, StepsDonor};
ghost use Rattle.clone_network.specs.declared.donor_step.DonorStep.{DonorStep};
ghost use Rattle.clone_engine.specs.Acts.{Act, Acts};
ghost use Rattle.clone_engine.specs.Donor.{Donor, IsDonor};
ghost use Rattle.clone_told.specs.Told.{gives};
ghost use Rattle.clone_paired.specs.Blocks.{Ascends};
ghost use Rattle.clone_paired.specs.Order.{CopiesInOrder};
ghost use Rattle.clone_paired.specs.Own.{own_session};

/// What a donor's session copies is in order: where no session stands, and over each act of a
/// donor whose disk tells what it holds.
pub fn order_stays()
    ensures begins { (d : Donor) → d.cloning.session ≡ None → CopiesInOrder d.cloning.session }
    ensures stays { (d t : Donor) (act : Act) → IsDonor d → IsSome d.engine.disk.told
        → CopiesInOrder d.cloning.session → Acts act d t → CopiesInOrder t.cloning.session }
{}

/// Where it is in order, a recipient may take what the donor tells of its stage, and the pages of
/// each block ascend.
pub fn order_serves()
    ensures fits { (d : Donor) (info : StageInfo) → CopiesInOrder d.cloning.session
        → ForSome d.cloning.session (λ s. IsSnap s.snap.list s.snap.chunks s.snap.room)
        → Tells d.cloning info → fits info.plan ≡ true }
    ensures ascends { (number : ℕ) (d : Donor) → CopiesInOrder d.cloning.session
        → Ascends (own_session number d.cloning) }
{}

/// So it stays over each step of the donor on a connection.
pub fn order_steps()
    ensures { (d t : Donor) (n m : Network) (number : ℕ) (answer : DonorStep)
        → IsDonor d → IsSome d.engine.disk.told → CopiesInOrder d.cloning.session
        → StepsDonor gives d t number n m answer
        → CopiesInOrder t.cloning.session }
{}
