ghost use Rattle.std.specs.Prelude.{◌≡◌, ◌<◌, ◌≤◌, List, None, Some, ℕ};
ghost use Rattle.clone_outside.specs.Causes.{Rose};
ghost use Rattle.clone_turn.specs.Parts.{IsMadeOf};
ghost use Rattle.clone_turn.specs.Runs.{IsLegalRun, end_of};
ghost use Rattle.clone_tasks.specs.declared.end.CloneEnd.{CloneEnd};
ghost use Rattle.clone_tasks.specs.declared.end.CloneEnd.TheVariants as end;
ghost use Rattle.clone_calls.specs.declared.answer.DonorAnswer.{DonorAnswer};
ghost use Rattle.clone_calls.specs.declared.call.DonorCall.{DonorCall};
ghost use Rattle.clone_engine.specs.Acts.{Acts, Calls};
ghost use Rattle.clone_engine.specs.Donor.{Donor};
ghost use Rattle.clone_machine.specs.Running.{JobEntry};
ghost use Rattle.clone_machine.specs.Sharing.{SharedDonor, Steps};
ghost use Rattle.clone_fetching.specs.Recipients.{IsToldOf, RecipientModel, RecipientSteps};
ghost use Rattle.clone_fetching.specs.declared.clone_ended.CloneEnded.{CloneEnded};
ghost use Rattle.clone_fetching.specs.declared.clone_ended.CloneEnded.TheVariants as told;
ghost use Rattle.clone_desk.specs.Desks.{DeskModel};
ghost use Rattle.clone_desk.specs.Steps.{DeskEntry, DeskSteps};
ghost use Rattle.clone_copying.specs.Calls.{RecipientEntry};
ghost use Rattle.clone_run.specs.declared.failure.Failure.{Failure};
ghost use Rattle.clone_run.specs.declared.failure.Failure.TheVariants as failure;
ghost use Rattle.clone_run.specs.declared.load.Load.{Load};
ghost use Rattle.clone_run.specs.declared.outcome.Cloned.{Cloned};
ghost use Rattle.clone_run.specs.declared.outcome.Outcome.{Outcome};
ghost use Rattle.clone_run.specs.Outcomes.{of_clone};
ghost use Rattle.clone_run.specs.Done.{AreDone, Job};
ghost use Rattle.clone_run.specs.Teams.{Parts};
ghost use Rattle.clone_causes.specs.Causes.{IsOfClone};

use clone_outside::{Net, PageDisk};

/// The count of faults of the donor's disk never falls over a legal run, and so it is over a call.
/// Where jobs made the calls of the run, and the failure that counts is a fault of that disk, the
/// count rose.
pub fn donor_laws<N: Net, R>()
    ensures later { (first : SharedDonor) (run : List JobEntry) → IsLegalRun Steps first run
        → first.donor.engine.disk.failures
        ≤ (end_of first run).donor.engine.disk.failures }
    ensures acts { (d t : Donor) (asked : DonorCall) (given : DonorAnswer)
        → Acts (Calls asked given) d t
        → d.engine.disk.failures ≤ t.engine.disk.failures }
    ensures rose { (load : Load) (jobs : List Job) (parts : Parts N N.End R) (o : Outcome)
        (first : SharedDonor) (run : List JobEntry) → AreDone N.End.Link load jobs parts o
        → IsLegalRun Steps first run → IsMadeOf parts.donor run
        → o.failure ≡ Some failure.DonorDisk
        → Rose first.donor.engine.disk.failures
        (end_of first run).donor.engine.disk.failures }
{}

/// So it is with the net of the desk, where no connection was made for a fault.
pub fn connection_laws<N: Net, R>()
    ensures later { (first : DeskModel N N.End) (run : List (DeskEntry N N.End))
        → IsLegalRun (DeskSteps N.Net N.End.Link) first run
        → N.failures first.net ≤ N.failures (end_of first run).net }
    ensures rose { (load : Load) (jobs : List Job) (parts : Parts N N.End R) (o : Outcome)
        (first : DeskModel N N.End) (run : List (DeskEntry N N.End))
        → AreDone N.End.Link load jobs parts o
        → IsLegalRun (DeskSteps N.Net N.End.Link) first run → IsMadeOf parts.desk run
        → o.failure ≡ Some failure.Connection
        → Rose (N.failures first.net) (N.failures (end_of first run).net) }
{}

/// And with the disk of the recipient, whose clone hadn't ended at first.
pub fn recipient_laws<N: Net, R: PageDisk>()
    ensures later { (first : RecipientModel R) (run : List (RecipientEntry R))
        → IsLegalRun (RecipientSteps R.state) first run
        → (R.state first.disk).failures ≤ (R.state (end_of first run).disk).failures }
    ensures rose { (load : Load) (jobs : List Job) (parts : Parts N N.End R) (o : Outcome)
        (first : RecipientModel R) (run : List (RecipientEntry R))
        → AreDone N.End.Link load jobs parts o → IsLegalRun (RecipientSteps R.state) first run
        → IsMadeOf parts.recipient run → first.reception.table.ended ≡ None
        → o.failure ≡ Some failure.RecipientDisk
        → Rose (R.state first.disk).failures (R.state (end_of first run).disk).failures }
{}

/// What jobs say of the clone's end is what the recipient knows of it at the end of its run, since
/// its table stays once the clone has ended: how the clone was completed, with the floor that it
/// met; and how it ended, where that is the failure that counts. A clone that was spent had more
/// losses than its limit.
pub fn told_laws<N: Net, R: PageDisk>()
    ensures cloned { (load : Load) (jobs : List Job) (parts : Parts N N.End R) (o : Outcome)
        (first : RecipientModel R) (run : List (RecipientEntry R)) (c : Cloned)
        → AreDone N.End.Link load jobs parts o → IsLegalRun (RecipientSteps R.state) first run
        → IsMadeOf parts.recipient run → o.cloned ≡ Some c
        → IsToldOf (end_of first run).reception.table
        (Some (told.Complete c.lsn c.position c.floor)) }
    ensures failed { (load : Load) (jobs : List Job) (parts : Parts N N.End R) (o : Outcome)
        (first : RecipientModel R) (run : List (RecipientEntry R)) (why : Failure)
        → IsOfClone why → AreDone N.End.Link load jobs parts o
        → IsLegalRun (RecipientSteps R.state) first run → IsMadeOf parts.recipient run
        → o.failure ≡ Some why
        → (how : CloneEnded) × (of_clone how ≡ Some why)
        × IsToldOf (end_of first run).reception.table (Some how) }
    ensures spent { (load : Load) (jobs : List Job) (parts : Parts N N.End R) (o : Outcome)
        (first : RecipientModel R) (run : List (RecipientEntry R)) (losses : ℕ)
        → AreDone N.End.Link load jobs parts o → IsLegalRun (RecipientSteps R.state) first run
        → IsMadeOf parts.recipient run → first.reception.table.ended ≡ None
        → o.failure ≡ Some (failure.Spent losses)
        → ((end_of first run).reception.table.ended ≡ Some (end.Spent losses))
        × (first.reception.table.limit < losses) }
    ensures stays { (first : RecipientModel R) (run : List (RecipientEntry R)) (how : CloneEnd)
        → IsLegalRun (RecipientSteps R.state) first run
        → first.reception.table.ended ≡ Some how
        → (end_of first run).reception.table ≡ first.reception.table }
{}
