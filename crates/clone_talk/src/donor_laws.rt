ghost use Rattle.std.specs.Prelude.{◌≡◌, ◌≢◌, Bool, IsSome, false, true, ℕ};
ghost use Rattle.clone_recipient.specs.Receptions.{Reception};
ghost use Rattle.clone_serve.specs.declared.turn.ServeAnswer.TheVariants.{NoMemory};
ghost use Rattle.clone_network.specs.Connections.{Connection, StepsEnd, is_open};
ghost use Rattle.clone_network.specs.Networks.{Network, StepsDonor};
ghost use Rattle.clone_network.specs.declared.donor_step.DonorStep.{DonorStep};
ghost use Rattle.clone_network.specs.declared.donor_step.DonorStep.TheVariants.{Served};
ghost use Rattle.clone_engine.specs.Acts.{Act, Acts};
ghost use Rattle.clone_engine.specs.Donor.{Donor, IsDonor};
ghost use Rattle.clone_told.specs.Told.{gives};
ghost use Rattle.clone_joined.specs.Strangers.{acts_in};
ghost use Rattle.clone_paired.specs.Order.{CopiesInOrder};
ghost use Rattle.clone_paired.specs.Own.{ActsAside, own_session};
ghost use Rattle.clone_paired.specs.Strangers.{IsBetween, ServesOther};
ghost use Rattle.clone_talk.specs.Talking.{IsAlone, IsServer, OpensNone, StaysAlone, Talks};

/// A clone goes on to talk over each step of the donor's end of a connection, as long as there is
/// memory.
pub fn donor_goes_on()
    ensures { (alone : Bool) (d t : Donor) (r : Reception) (n m : Network) (number : ℕ)
        (answer : DonorStep) → IsServer d → IsServer t → Talks alone d r n
        → StepsDonor gives d t number n m answer → answer ≢ Served NoMemory
        → Talks alone t r m }
{}

/// So it does over a step of a stranger's end by which nobody acts in its session. Whether another
/// session stands then is to be seen. What a session copies stays in order, and the clone's own
/// session stays, though none of its clone has begun.
pub fn strangers_leave_talk()
    ensures talks { (alone later : Bool) (d t : Donor) (r : Reception) (n : Network)
        (at after : Connection) (says : DonorStep) → IsServer d → Talks alone d r n
        → StepsEnd gives d t at after says → acts_in r.table.session d t at says ≡ false
        → is_open at ≡ true → IsBetween at.doing → ServesOther r.table.session at.doing
        → (later ≡ true → (alone ≡ true) × StaysAlone r t) → Talks later t r n }
    ensures order { (d t : Donor) (at after : Connection) (says : DonorStep) → IsServer d
        → CopiesInOrder d.cloning.session → StepsEnd gives d t at after says
        → CopiesInOrder t.cloning.session }
    ensures between { (d t : Donor) (at after : Connection) (says : DonorStep)
        → StepsEnd gives d t at after says → is_open at ≡ true → IsBetween at.doing
        → is_open after ≡ true → IsBetween after.doing }
{}

/// So it does over an act of the donor that isn't one of its session, and one that opens no session
/// leaves the donor alone with it.
pub fn acts_laws()
    ensures talks { (alone later : Bool) (d t : Donor) (act : Act) (r : Reception) (n : Network)
        → IsDonor d → IsSome d.engine.disk.told → Talks alone d r n → Acts act d t
        → ActsAside r.table.session act
        → (later ≡ true → (alone ≡ true) × StaysAlone r t) → Talks later t r n }
    ensures alone { (number : ℕ) (d t : Donor) (act : Act) → Acts act d t → OpensNone act
        → IsAlone number d → IsAlone number t }
{}
