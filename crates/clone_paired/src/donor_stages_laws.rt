ghost use Rattle.std.specs.Prelude.{◌≡◌, ◌≢◌, ℕ, Some};
ghost use Rattle.clone_recipient.specs.Receptions.{Reception};
ghost use Rattle.clone_serve.specs.declared.turn.ServeAnswer.TheVariants.{NoMemory};
ghost use Rattle.clone_network.specs.Networks.{Network, StepsDonor};
ghost use Rattle.clone_network.specs.declared.donor_step.DonorStep.{DonorStep};
ghost use Rattle.clone_network.specs.declared.donor_step.DonorStep.TheVariants.{Served};
ghost use Rattle.clone_engine.specs.Donor.{Donor};
ghost use Rattle.clone_told.specs.Told.{gives};
ghost use Rattle.clone_paired.specs.Calm.{IsFree};
ghost use Rattle.clone_paired.specs.Lines.{connection_of};
ghost use Rattle.clone_paired.specs.Own.{own_session};
ghost use Rattle.clone_paired.specs.Paired.{IsPaired};
ghost use Rattle.clone_paired.specs.Around.{ServesOne};

/// Outside an EXECUTE each step of the donor's end of a task's connection keeps a clone paired,
/// while there is memory: where a command is carried out, that of INIT, REINIT or ATTACH, an
/// EXECUTE, or an acknowledgement, by which the donor may come to the next stage; and where there
/// is none, or the connection is lost.
pub fn task_ends()
    ensures { (d t : Donor) (r : Reception) (n m : Network) (task number : ℕ) (answer : DonorStep)
        → IsPaired (own_session r.table.session d.cloning) r n
        → StepsDonor gives d t number n m answer → IsFree n number
        → connection_of n task ≡ Some number → ServesOne r d t
        → answer ≢ Served NoMemory → IsPaired (own_session r.table.session t.cloning) r m }
{}
