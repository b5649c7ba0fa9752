ghost use Rattle.std.specs.Prelude.{◌≡◌, ◌≢◌, ◌≤◌, Bool, None, ℕ, true};
ghost use Rattle.clone_base.specs.declared.limits.TheConstants.{MOST_LOSSES, MOST_TASKS};
ghost use Rattle.clone_outside.specs.DiskCalls.{DiskState};
ghost use Rattle.clone_tasks.specs.Tables.{IsBounded, is_running};
ghost use Rattle.clone_tasks.specs.declared.end.CloneEnd.{CloneEnd};
ghost use Rattle.clone_recipient.specs.Receptions.{AreCounted, Reception, begun};
ghost use Rattle.clone_network.specs.Connections.{cut_at};
ghost use Rattle.clone_network.specs.Networks.{Network, StepsTask, on_connected, unconnected};
ghost use Rattle.clone_fetch.specs.declared.answer.TaskAnswer.{TaskAnswer};
ghost use Rattle.clone_fetch.specs.declared.answer.TaskAnswer.TheVariants.{Ended, NoMemory};
ghost use Rattle.clone_engine.specs.Copying.{moment_of};
ghost use Rattle.clone_engine.specs.Donor.{Donor};
ghost use Rattle.clone_told.specs.Told.{gives};
ghost use Rattle.clone_paired.specs.Order.{CopiesInOrder};
ghost use Rattle.clone_paired.specs.Own.{own_session};
ghost use Rattle.clone_paired.specs.Quiet.{IsQuiet};
ghost use Rattle.clone_talk.specs.Talking.{EndsFairly, IsServer, Talks};

/// A clone that has just begun talks with a donor that has no session of it. It goes on to talk
/// while a connection is cut, and over each step of a task that doesn't end the clone, as long as
/// there is memory. A step of a task ends the clone by no bytes that it would find garbled, and by
/// a refusal only where another session stood at the donor.
pub fn talk_laws()
    ensures begins { (alone : Bool) (number count limit version : ℕ) (d : Donor) → 1 ≤ count
        → count ≤ MOST_TASKS → 1 ≤ version → version ≤ 2 → limit ≤ MOST_LOSSES
        → CopiesInOrder d.cloning.session → own_session number d.cloning ≡ None
        → (alone ≡ true → d.cloning.session ≡ None)
        → Talks alone d (begun number count limit version) (unconnected count) }
    ensures cuts { (alone : Bool) (d : Donor) (r : Reception) (n : Network)
        (connection to_donor to_task : ℕ) → Talks alone d r n
        → Talks alone d r (on_connected connection (cut_at to_donor to_task) n) }
    ensures task { (alone : Bool) (d : Donor) (r s : Reception) (disk after : DiskState)
        (n m : Network) (task floor : ℕ) (answer : TaskAnswer) → Talks alone d r n
        → is_running r.table ≡ true → IsBounded s.table → AreCounted s.table.phase s
        → floor ≤ (moment_of d.engine).position
        → StepsTask task floor r s disk after n m answer → answer ≢ NoMemory
        → is_running s.table ≡ true → Talks alone d s m }
    ensures ends { (alone : Bool) (d : Donor) (r s : Reception) (disk after : DiskState)
        (n m : Network) (task floor : ℕ) (how : CloneEnd) → Talks alone d r n
        → is_running r.table ≡ true → StepsTask task floor r s disk after n m (Ended how)
        → EndsFairly alone how }
{}

/// A clone that goes on is never stuck: some task finds something to do, or the donor's end of some
/// connection does.
pub fn talk_moves()
    ensures { (alone : Bool) (d : Donor) (r : Reception) (disk : DiskState) (n : Network)
        → IsServer d → Talks alone d r n → is_running r.table ≡ true
        → IsQuiet gives d r disk n → ⊥ }
{}
