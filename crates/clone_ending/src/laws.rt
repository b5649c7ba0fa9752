ghost use Rattle.std.specs.Prelude.{◌≡◌, ◌≢◌, ◌<◌, ◌≤◌, ℕ, Some, true, false, slice_get};
ghost use Rattle.std.specs.Option.{ForSome};
ghost use Rattle.clone_outside.specs.DiskCalls.{DiskState};
ghost use Rattle.clone_tasks.specs.Tables.{IsBounded};
ghost use Rattle.clone_recipient.specs.Receptions.{Reception};
ghost use Rattle.clone_fetch.specs.declared.answer.TaskAnswer.{TaskAnswer};
ghost use Rattle.clone_fetch.specs.declared.answer.TaskAnswer.TheVariants.{Idle, NoMemory, Stale};
ghost use Rattle.clone_network.specs.Connections.{Connection, StepsEnd, cut_at, is_open};
ghost use Rattle.clone_network.specs.Networks.{Network, Seat, StepsDonor, StepsTask, gives_up};
ghost use Rattle.clone_network.specs.Networks.{on_connected};
ghost use Rattle.clone_network.specs.declared.donor_step.DonorStep.{DonorStep};
ghost use Rattle.clone_network.specs.declared.donor_step.DonorStep.TheVariants.{Served};
ghost use Rattle.clone_serve.specs.declared.turn.ServeAnswer.TheVariants as says;
ghost use Rattle.clone_snapshot.specs.Snaps.{IsSnap};
ghost use Rattle.clone_session.specs.Cloning.{IsCloning};
ghost use Rattle.clone_engine.specs.Donor.{Donor, IsDonor};
ghost use Rattle.clone_told.specs.Told.{gives};
ghost use Rattle.clone_ending.specs.Left.{work_left};
ghost use Rattle.clone_ending.specs.Service.{HasNumbers, donor_work, end_work};
ghost use Rattle.clone_ending.specs.Unread.{donor_left, is_serving_on, seats_left};

use clone_calls::Answers;

/// A step of a task leaves less to do, unless there was nothing to do, the connection was an old
/// one or there was no memory. A step that finds nothing to do, or an old connection, changes
/// nothing that is known of the clone, and one without memory leaves no more.
pub fn ending_laws()
    ensures task { (r s : Reception) (d e : DiskState) (n m : Network) (task floor : ℕ)
        (answer : TaskAnswer) → IsBounded r.table → IsBounded s.table
        → StepsTask task floor r s d e n m answer
        → answer ≢ Idle → answer ≢ Stale → answer ≢ NoMemory
        → work_left s.table < work_left r.table }
    ensures idle { (r s : Reception) (d e : DiskState) (n m : Network) (task floor : ℕ)
        → StepsTask task floor r s d e n m Idle → s ≡ r }
    ensures stale { (r s : Reception) (d e : DiskState) (n m : Network) (task floor : ℕ)
        → StepsTask task floor r s d e n m Stale → s ≡ r }
    ensures memory { (r s : Reception) (d e : DiskState) (n m : Network) (task floor : ℕ)
        → IsBounded r.table → IsBounded s.table → StepsTask task floor r s d e n m NoMemory
        → work_left s.table ≤ work_left r.table }
{}

/// A step of the donor leaves less on the connections, unless there was nothing to do or it was one
/// within an EXECUTE; and no step leaves more.
pub fn unread_laws<A: Answers>()
    ensures donor { (a b : A) (n m : Network) (number : ℕ) (answer : DonorStep)
        → is_serving_on n.connections number ≡ false → answer ≢ Served says.Idle
        → StepsDonor A.gives a b number n m answer → donor_left m < donor_left n }
    ensures most { (a b : A) (n m : Network) (number : ℕ) (answer : DonorStep)
        → StepsDonor A.gives a b number n m answer → donor_left m ≤ donor_left n }
    ensures seats { (a b : A) (n m : Network) (number : ℕ) (answer : DonorStep)
        → StepsDonor A.gives a b number n m answer → m.seats ≡ n.seats }
{}

/// A task that finds nothing to do, or an old connection, leaves the disk and the connections as
/// they were.
pub fn quiet_laws()
    ensures idle { (r s : Reception) (d e : DiskState) (n m : Network) (task floor : ℕ)
        → StepsTask task floor r s d e n m Idle → (e ≡ d) × (m ≡ n) }
    ensures stale { (r s : Reception) (d e : DiskState) (n m : Network) (task floor : ℕ)
        → StepsTask task floor r s d e n m Stale → (e ≡ d) × (m ≡ n) }
{}

/// A connection that is cut leaves no more, and one that its task gives up as much, of which the
/// task has none then.
pub fn given_up_laws()
    ensures cut { (n : Network) (number to_donor to_task : ℕ)
        → donor_left (on_connected number (cut_at to_donor to_task) n) ≤ donor_left n }
    ensures unread { (n : Network) (task : ℕ) (seat : Seat)
        → donor_left (gives_up task seat n) ≡ donor_left n }
    ensures seats { (n : Network) (task number : ℕ) (seat : Seat)
        → slice_get n.seats task ≡ Some seat → seat.connection ≡ Some number
        → seats_left (gives_up task seat n) < seats_left n }
{}

/// A step of the donor leaves it less to do on its connections, within an EXECUTE too, unless there
/// was nothing to do; and then it leaves no more.
pub fn service_laws()
    ensures donor { (d t : Donor) (n m : Network) (number : ℕ) (answer : DonorStep)
        → ForSome t.cloning.session HasNumbers → answer ≢ Served says.Idle
        → StepsDonor gives d t number n m answer → donor_work t m < donor_work d n }
    ensures rests { (d t : Donor) (n m : Network) (number : ℕ)
        → ForSome t.cloning.session HasNumbers
        → StepsDonor gives d t number n m (Served says.Idle) → donor_work t m ≤ donor_work d n }
{}

/// A connection that nobody reads any more has less left after each step of the donor's end, as
/// long as the loop of that goes on.
pub fn lone_end_laws()
    ensures end { (d t : Donor) (at after : Connection) (answer : DonorStep) → IsDonor d
        → IsCloning d.cloning
        → ForSome d.cloning.session (λ s. IsSnap s.snap.list s.snap.chunks s.snap.room)
        → ForSome t.cloning.session HasNumbers → is_open at ≡ true → at.held ≡ false
        → StepsEnd gives d t at after answer → is_open after ≡ true
        → end_work t after < end_work d at }
{}
