ghost use Rattle.std.specs.Prelude.{◌≡◌, ◌<◌, ◌^◌, ◌≢◌, ℕ, None, Some, false, is_some, true};
ghost use Rattle.std.specs.declared.option.Option.{Option};
ghost use Rattle.clone_outside.specs.Causes.{Rose};
ghost use Rattle.clone_outside.specs.Disk.{DiskImage, ForTold, Steps, blank};
ghost use Rattle.clone_outside.specs.DiskCalls.{DiskState};
ghost use Rattle.clone_outside.specs.declared.mark.Mark.TheVariants.{InProgress};
ghost use Rattle.clone_lay.specs.Marked.{marked};
ghost use Rattle.clone_session.specs.declared.info.Stop.{Stop};
ghost use Rattle.clone_tasks.specs.Tables.{is_running};
ghost use Rattle.clone_tasks.specs.declared.end.CloneEnd.TheVariants.{Complete};
ghost use Rattle.clone_recipient.specs.Receptions.{AreCounted, Reception, begun};
ghost use Rattle.clone_fetch.specs.declared.answer.TaskAnswer.{TaskAnswer};
ghost use Rattle.clone_fetch.specs.declared.answer.TaskAnswer.TheVariants.{Ended, NoMemory};
ghost use Rattle.clone_calls.specs.declared.answer.DonorAnswer.{DonorAnswer};
ghost use Rattle.clone_calls.specs.declared.call.DonorCall.{DonorCall};
ghost use Rattle.clone_serve.specs.declared.turn.ServeAnswer.TheVariants.{DiskFault};
ghost use Rattle.clone_network.specs.Connections.{Connection, StepsEnd, cut_at};
ghost use Rattle.clone_network.specs.Networks.{Network, StepsDonor, StepsTask, on_connected};
ghost use Rattle.clone_network.specs.Networks.{unconnected};
ghost use Rattle.clone_network.specs.declared.donor_step.DonorStep.{DonorStep};
ghost use Rattle.clone_network.specs.declared.donor_step.DonorStep.TheVariants.{Served};
ghost use Rattle.clone_engine.specs.Acts.{Act, Acts, CloneActs};
ghost use Rattle.clone_engine.specs.Donor.{Donor};
ghost use Rattle.clone_told.specs.Told.{gives};
ghost use Rattle.clone_joined.specs.Joined.{IsCloned, IsInProgress, IsJoined, IsLeft};
ghost use Rattle.clone_joined.specs.Lending.{IsOfClone, Lends, StopsNow};
ghost use Rattle.clone_joined.specs.Runs.{HasCome, HasFloor, IsFresh, MayAct, stop_by};
ghost use Rattle.clone_joined.specs.Strangers.{acts_in};

/// A donor comes to its run, and goes on by acts that keep the session and acknowledge its copy of
/// pages with this floor alone, and by steps of strangers who don't act in it. A recipient begins,
/// and whatever step either takes then while there is memory, and whichever connection is cut, all
/// that the recipient accepts was answered in the donor's run, and the recipient's disk says that
/// its copy is in progress. So once the clone is complete, that disk recovers to the donor's
/// history at the first stop, where both disks tell what they hold. However else it ends, the copy
/// is still in progress or just as complete.
pub fn joined_laws()
    ensures fresh { (number : ℕ) (d : Donor) → IsFresh number d → HasCome number None None d }
    ensures comes { (number : ℕ) (floor : Option ℕ) (stop : Option Stop) (d t : Donor) (act : Act)
        → HasCome number floor stop d → Acts act d t → MayAct number floor d act
        → HasCome number floor (stop_by number stop t) t }
    ensures strangers_come { (number : ℕ) (floor : Option ℕ) (stop : Option Stop) (d t : Donor)
        (at after : Connection) (says : DonorStep) → HasCome number floor stop d
        → StepsEnd gives d t at after says → acts_in number d t at says ≡ false
        → HasCome number floor (stop_by number stop t) t }
    ensures begins { (number count limit version tasks : ℕ) (stop : Option Stop) (d : Donor)
        (told now : Option DiskImage) → HasCome number None stop d
        → ForTold told (λ m. m ≡ blank) → Steps told now (marked (InProgress number))
        → IsJoined number stop d (begun number count limit version) now (unconnected tasks) }
    ensures acts { (number : ℕ) (stop : Option Stop) (d t : Donor) (act : Act) (r : Reception)
        (told : Option DiskImage) (n : Network) → IsJoined number stop d r told n
        → Acts act d t → MayAct number r.table.floor d act
        → IsJoined number (stop_by number stop t) t r told n }
    ensures strangers { (number : ℕ) (stop : Option Stop) (d t : Donor) (r : Reception)
        (told : Option DiskImage) (n : Network) (at after : Connection) (says : DonorStep)
        → IsJoined number stop d r told n → StepsEnd gives d t at after says
        → acts_in number d t at says ≡ false
        → IsJoined number (stop_by number stop t) t r told n }
    ensures cuts { (number : ℕ) (stop : Option Stop) (d : Donor) (r : Reception)
        (told : Option DiskImage) (n : Network) (connection to_donor to_task : ℕ)
        → IsJoined number stop d r told n
        → IsJoined number stop d r told (on_connected connection (cut_at to_donor to_task) n) }
    ensures donor { (number : ℕ) (stop : Option Stop) (d t : Donor) (r : Reception)
        (told : Option DiskImage) (n m : Network) (connection : ℕ) (answer : DonorStep)
        → IsJoined number stop d r told n → StepsDonor gives d t connection n m answer
        → IsJoined number (stop_by number stop t) t r told m }
    ensures task { (number : ℕ) (stop : Option Stop) (d : Donor) (r s : Reception)
        (disk after : DiskState) (n m : Network) (task floor : ℕ) (answer : TaskAnswer)
        → AreCounted r.table.phase r → IsJoined number stop d r disk.told n
        → StepsTask task floor r s disk after n m answer → answer ≢ NoMemory
        → is_running s.table ≡ true → IsJoined number stop d s after.told m }
    ensures floor { (number : ℕ) (first : Stop) (d : Donor) (r : Reception)
        (told : Option DiskImage) (n : Network) → IsJoined number (Some first) d r told n
        → HasFloor r.table.floor first.position }
    ensures marked { (number : ℕ) (stop : Option Stop) (d : Donor) (r : Reception)
        (told : Option DiskImage) (n : Network) → IsJoined number stop d r told n
        → ForTold told (IsInProgress number) }
    ensures completes { (number : ℕ) (stop : Option Stop) (d : Donor) (r s : Reception)
        (disk after : DiskState) (n m : Network) (task floor lsn position : ℕ)
        (answer : TaskAnswer) → number < 2 ^ 64 → IsJoined number stop d r disk.told n
        → StepsTask task floor r s disk after n m answer → answer ≡ Ended (Complete lsn position)
        → IsCloned number stop d s.table.floor after.told position }
    ensures ends { (number : ℕ) (stop : Option Stop) (d : Donor) (r s : Reception)
        (disk after : DiskState) (n m : Network) (task floor : ℕ) (answer : TaskAnswer)
        → number < 2 ^ 64 → IsJoined number stop d r disk.told n
        → StepsTask task floor r s disk after n m answer → IsLeft number stop d after.told }
{}

/// A step of a donor's end, whoever is connected, leaves the plain donor and what its disk holds. A
/// stop that comes by it, as by any act, has as many commits and drops as the donor has then. The
/// step says that the donor's disk failed only where the count of faults rose. One call of a clone
/// leaves as much, and no act changes whether the disk tells what it holds.
pub fn end_laws()
    ensures lends { (d t : Donor) (at after : Connection) (says : DonorStep)
        → StepsEnd gives d t at after says → Lends d t }
    ensures now { (number : ℕ) (d t : Donor) (at after : Connection) (says : DonorStep)
        → StepsEnd gives d t at after says → StopsNow number d t }
    ensures fault { (d t : Donor) (at after : Connection) (says : DonorStep)
        → StepsEnd gives d t at after says → says ≡ Served DiskFault
        → Rose d.engine.disk.failures t.engine.disk.failures }
    ensures acted { (d t : Donor) (asked : DonorCall) (given : DonorAnswer) → IsOfClone asked
        → CloneActs asked given d t → Lends d t }
    ensures acts_now { (number : ℕ) (d t : Donor) (act : Act) → Acts act d t
        → StopsNow number d t }
    ensures told { (d t : Donor) (act : Act) → Acts act d t
        → is_some t.engine.disk.told ≡ is_some d.engine.disk.told }
{}
