ghost use Rattle.std.specs.Prelude.{◌≡◌, ◌<◌, ◌^◌, [], ℕ, None, Some, IsSome};
ghost use Rattle.std.specs.List.{AllByRecursion};
ghost use Rattle.clone_outside.specs.DiskCalls.{DiskState};
ghost use Rattle.clone_desk.specs.Settling.{IsSettled};
ghost use Rattle.clone_fetching.specs.Recipients.{IsToldOf};
ghost use Rattle.clone_fetching.specs.declared.clone_ended.CloneEnded.TheVariants.{Complete};
ghost use Rattle.clone_engine.specs.Donor as engine;
ghost use Rattle.clone_joined.specs.Runs.{IsFresh};
ghost use Rattle.clone_run.specs.declared.load.Load.{Load};
ghost use Rattle.clone_run.specs.declared.outcome.Cloned.{Cloned};
ghost use Rattle.clone_run.specs.declared.outcome.Outcome.{Outcome};
ghost use Rattle.clone_run.specs.Loads.{IsLoad};
ghost use Rattle.clone_run.specs.Ran.{Begin, HaveRun, Leave, Shared};
ghost use Rattle.clone_written.specs.Commits.{HasAllCommits, HasCommits};
ghost use Rattle.clone_matched.specs.Telling.{Tells};
ghost use Rattle.clone_loaded.specs.Loaded.{AreCounted, HoldsMoment, IsMoment, TellsAll};

use clone_answering::{aside_laws, serving_laws};
use clone_causes::{connection_laws, donor_laws, recipient_laws, told_laws};
use clone_desk::{Desk, DeskAnswer, DeskCall, desk_run_laws};
use clone_fetching::{Recipient, RecipientAnswer, RecipientCall};
use clone_held::held_laws;
use clone_joined::end_laws;
use clone_machine::{JobAnswer, JobCall, SharedDonor, run_laws};
use clone_matched::matched_laws;
use clone_outside::{Net, PageDisk};
use clone_reading::spelled_laws;
use clone_runs::clone_laws;
use clone_taking::{floor_laws, keeping_laws, others_laws, taking_laws};
use clone_told::told_laws as frames_told_laws;
use clone_turn::Entry;
use clone_written::{set_up_laws, written_laws};
use std::collections::LinkedList;

/// A clone was begun at a donor of which nothing was taken before, its jobs ran, and its connections
/// were settled. Where each end tells its bytes, and the recipient tells at last that the clone is
/// complete, the recipient's disk holds the donor's history at a moment of its run, not before the
/// floor that was told.
pub fn loaded_laws<D: PageDisk, R: PageDisk, N: Net>()
    ensures { (session version : ℕ) (load : Load) (o : Outcome) (d : engine.Donor)
        (disk : DiskState) (given : N) (s t : Shared N N.End R) (c : Cloned) → session < 2 ^ 64
        → IsLoad load → IsFresh session d
        → Begin N.Net N.End.Link R.state session version load d disk given s
        → (ran : HaveRun N.Net N.End.Link R.state load o s t)
        → AllByRecursion (IsSettled N.End.Link) t.desk.records
        → TellsAll N.Net N.End.Link R.state t
        → IsToldOf t.recipient.reception.table (Some (Complete c.lsn c.position c.floor))
        → HoldsMoment N.Net N.End.Link R.state session load o s t ran c }
{
    serving_laws::<N>();
    aside_laws::<N, R>();
    taking_laws::<SharedDonor<D>, JobCall, JobAnswer, N, N::End, R>();
    others_laws::<SharedDonor<D>, JobCall, JobAnswer, N::End, R>();
    keeping_laws::<R>();
    floor_laws::<R>();
    matched_laws::<N>();
    desk_run_laws::<N>();
    held_laws::<R>();
    run_laws();
    frames_told_laws();
    spelled_laws();
    set_up_laws();
    clone_laws::<
        Entry<SharedDonor<D>, JobCall, JobAnswer>,
        Entry<Recipient<R>, RecipientCall, RecipientAnswer>,
        Entry<Desk<N>, DeskCall<N::End>, DeskAnswer<N::End>>,
        LinkedList<u8>,
        LinkedList<u8>,
    >();
}

/// Where each end of a connection that the net made tells its bytes, as those in memory do, each end
/// that is at the desk does.
pub fn telling_laws<N: Net, R>()
    ensures { (state : R → DiskState) (load : Load) (o : Outcome) (s t : Shared N N.End R)
        → s.desk.records ≡ [] → HaveRun N.Net N.End.Link state load o s t
        → ((e : N.End) → N.Net.made t.desk.net (N.End.name e) → Tells N.End.Link e)
        → TellsAll N.Net N.End.Link state t }
{}

/// The same of what comes back of such a run: where both disks tell what they hold, the recipient's
/// holds a moment of the donor that comes back. Its commits are those of the load's writers and no
/// others, all of them where no failure came of the jobs.
pub fn moment_laws<D: PageDisk, R: PageDisk, N: Net>()
    ensures moment { (session version : ℕ) (load : Load) (o : Outcome) (d left : engine.Donor)
        (disk : DiskState) (disk_left : R) (given net_left : N) (s t : Shared N N.End R)
        (c : Cloned) → session < 2 ^ 64 → IsLoad load → IsFresh session d
        → IsSome d.engine.disk.told
        → Begin N.Net N.End.Link R.state session version load d disk given s
        → HaveRun N.Net N.End.Link R.state load o s t
        → Leave N.Net N.End.Link R.state t left disk_left net_left
        → TellsAll N.Net N.End.Link R.state t → o.cloned ≡ Some c
        → IsMoment session c left (R.state disk_left).told }
    ensures commits { (session version : ℕ) (load : Load) (o : Outcome) (d left : engine.Donor)
        (disk : DiskState) (disk_left : R) (given net_left : N) (s t : Shared N N.End R)
        → d.engine.donor.binlog ≡ []
        → Begin N.Net N.End.Link R.state session version load d disk given s
        → HaveRun N.Net N.End.Link R.state load o s t
        → Leave N.Net N.End.Link R.state t left disk_left net_left
        → HasCommits load left.engine.donor
        × (o.failure ≡ None → HasAllCommits load left.engine.donor) }
{
    loaded_laws::<D, R, N>();
    told_laws::<N, R>();
    set_up_laws();
    run_laws();
    end_laws();
    written_laws::<N, N::End, R>();
}

/// Where a disk or the net failed, and that is the failure that counts, its count of faults rose.
pub fn failure_laws<R: PageDisk, N: Net>()
    ensures { (session version : ℕ) (load : Load) (o : Outcome) (d left : engine.Donor)
        (disk : DiskState) (disk_left : R) (given net_left : N) (s t : Shared N N.End R)
        → Begin N.Net N.End.Link R.state session version load d disk given s
        → HaveRun N.Net N.End.Link R.state load o s t
        → Leave N.Net N.End.Link R.state t left disk_left net_left
        → AreCounted N.Net N.End.Link R.state o d left disk (R.state disk_left) given net_left }
{
    donor_laws::<N, R>();
    connection_laws::<N, R>();
    recipient_laws::<N, R>();
}
