ghost use Rattle.std.specs.Prelude.{◌≡◌, ◌≢◌, ◌≤◌, None, true, ℕ};
ghost use Rattle.std.specs.declared.option.Option.{Option};
ghost use Rattle.clone_base.specs.declared.limits.TheConstants.{MOST_LOSSES, MOST_TASKS};
ghost use Rattle.clone_outside.specs.DiskCalls.{DiskState};
ghost use Rattle.clone_session.specs.Cloning.{Session};
ghost use Rattle.clone_tasks.specs.Tables.{IsBounded, is_running};
ghost use Rattle.clone_tasks.specs.declared.end.CloneEnd.{CloneEnd};
ghost use Rattle.clone_recipient.specs.Receptions.{AreCounted, Reception, begun};
ghost use Rattle.clone_network.specs.Connections.{cut_at};
ghost use Rattle.clone_network.specs.Networks.{Network, StepsDonor, StepsTask, on_connected};
ghost use Rattle.clone_network.specs.Networks.{unconnected};
ghost use Rattle.clone_network.specs.declared.donor_step.DonorStep.{DonorStep};
ghost use Rattle.clone_fetch.specs.declared.answer.TaskAnswer.{TaskAnswer};
ghost use Rattle.clone_fetch.specs.declared.answer.TaskAnswer.TheVariants.{Ended, NoMemory};
ghost use Rattle.clone_paired.specs.Fair.{EndsFairly};
ghost use Rattle.clone_paired.specs.Paired.{IsPaired, IsReception};
ghost use Rattle.clone_paired.specs.Quiet.{FindsNothing, GoesOn, IsQuiet, ServesNone};

use clone_calls::Answers;

/// A clone that has just begun is paired with a donor that has no session of it. It stays so while
/// a connection is cut, and over each step of a task that doesn't end the clone, as long as there
/// is memory.
pub fn paired_laws()
    ensures begins { (number count limit version : ℕ) → 1 ≤ count
        → IsPaired None (begun number count limit version) (unconnected count) }
    ensures cuts { (session : Option Session) (r : Reception) (n : Network)
        (connection to_donor to_task : ℕ) → IsPaired session r n
        → IsPaired session r (on_connected connection (cut_at to_donor to_task) n) }
    ensures task { (session : Option Session) (r s : Reception) (d e : DiskState) (n m : Network)
        (task floor : ℕ) (answer : TaskAnswer) → IsReception r → IsReception s
        → IsPaired session r n → is_running r.table ≡ true
        → StepsTask task floor r s d e n m answer → answer ≢ NoMemory
        → is_running s.table ≡ true → IsPaired session s m }
{}

/// A reception that has just begun is one, and stays one over each step of a task, where its lists
/// are bounded and counted.
pub fn reception_laws()
    ensures begins { (number count limit version : ℕ) → 1 ≤ count → count ≤ MOST_TASKS
        → 1 ≤ version → version ≤ 2 → limit ≤ MOST_LOSSES
        → IsReception (begun number count limit version) }
    ensures task { (r s : Reception) (d e : DiskState) (n m : Network) (task floor : ℕ)
        (answer : TaskAnswer) → IsReception r → StepsTask task floor r s d e n m answer
        → IsBounded s.table → AreCounted s.table.phase s → IsReception s }
{}

/// A step of a task ends the clone neither since the donor sent what is garbled, nor since it
/// refused.
pub fn ends_fairly()
    ensures { (session : Option Session) (r s : Reception) (d e : DiskState) (n m : Network)
        (task floor : ℕ) (how : CloneEnd) → IsReception r → IsPaired session r n
        → StepsTask task floor r s d e n m (Ended how) → EndsFairly how }
{}

/// An end of the donor's that serves no EXECUTE, and finds nothing to do or that its connection is
/// lost, leaves the donor as it is and the clone paired.
pub fn rests_laws<A: Answers>()
    ensures { (a b : A) (session : Option Session) (r : Reception) (n m : Network) (number : ℕ)
        (answer : DonorStep) → IsPaired session r n → ServesNone n number → FindsNothing answer
        → StepsDonor A.gives a b number n m answer → (b ≡ a) × IsPaired session r m }
{}

/// A clone that goes on is never stuck: some task finds something to do, or the donor's end of some
/// connection does, as long as no end rests that serves an EXECUTE.
pub fn never_stuck<A: Answers>()
    ensures { (a : A) (session : Option Session) (r : Reception) (d : DiskState) (n : Network)
        → IsReception r → IsPaired session r n → is_running r.table ≡ true
        → IsQuiet A.gives a r d n → GoesOn A.gives a n → ⊥ }
{}
