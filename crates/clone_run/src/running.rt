//! The jobs of a run. Each is started, then those after it, and once these have ended it is waited
//! for. So the tasks end first, then the writers, then those that keep the donor going, and last
//! those that serve.
ghost use Rattle.std.specs.Prelude.{◌≡◌, ◌<◌, ◌≤◌, true, false, None, Some, IsSome};
ghost use Rattle.clone_outside.specs.Causes.{Rose};
ghost use Rattle.clone_run.specs.Done.{DoneBy, fetched_from, kept_up_from, served_from, written_from};
ghost use Rattle.clone_run.specs.Loads.{IsLoad};
ghost use Rattle.clone_run.specs.Lending.{IsSame};
ghost use Rattle.clone_run.specs.Outcomes.{IsUnstarted};
ghost use Rattle.clone_run.specs.declared.failure.Failure.TheVariants as failure;

use crate::failure::Failure;
use crate::kinds::{RunDisk, RunLink, RunNet};
use crate::outcome::Outcome;
use crate::starting::{start_fetch, start_serve};
use crate::team::Team;
use clone_jobs::{JobEnd, Upkeep};
use clone_outside::{Crew, Gate, Link};
use clone_task_jobs::{FetchJobEnd, ServeJobEnd};
use std::sync::Wait;
use std::thread::Threads;
use std::time::Clock;

/// What the jobs of a run share.
pub(crate) type RunTeam<G, H> = Team<RunDisk, RunDisk, RunNet<H>, G, H>;

/// What jobs keep up while the others work, in the order in which they are started.
const UPKEEP: [Upkeep; 3] = [Upkeep::Flusher, Upkeep::Checkpointer, Upkeep::Archiver];

/// Serves the tasks from this one on, while all other jobs work.
pub(crate) fn serve_from<
    T: Threads,
    G: Gate + Send + Sync + Drop + 'static,
    H: Wait + Clock + Copy + Send + Sync + Drop + 'static,
>(team: &mut RunTeam<G, H>, crew: &mut Crew<T>, task: u8) -> Outcome
    requires load { IsLoad team.old.load }
    ensures done { result.whole ≡ true
        → DoneBy ⟦<RunLink<H> as Link>⟧ (served_from team.old.load task) result team.old team.new }
    ensures same { IsSame team.old team.new }
    ensures unstarted { result.whole ≡ false → IsUnstarted result.failure }
    ensures cloned { result.failure ≡ None → IsSome result.cloned }
    ensures thread { result.failure ≡ Some failure.Thread → Rose crew.old crew.new }
    ensures count { crew.old ≤ crew.new }
{
    if task >= team.load.tasks {
        return keep_up_from(team, crew, 0);
    }
    let Ok(job) = team.serve_job(task) else {
        return team.fail(Failure::Memory);
    };
    match start_serve(crew, job) {
        Ok(ticket) => {
            let others = serve_from(team, crew, task + 1);
            let ServeJobEnd { seat, desk, ending } = crew.finish(ticket);
            team.donor.take_back(seat);
            team.desk.take_back(desk);
            others.with(Failure::of_ending(ending))
        }
        Err(refusal) => team.fail(Failure::of_start(refusal)),
    }
}

// Keeps the donor going by the jobs from this one on, while writers write and tasks fetch. Once
// these are done, the run is to end.
fn keep_up_from<
    T: Threads,
    G: Gate + Send + Sync + Drop + 'static,
    H: Wait + Clock + Copy + Send + Sync + Drop + 'static,
>(team: &mut RunTeam<G, H>, crew: &mut Crew<T>, number: usize) -> Outcome
    requires load { IsLoad team.old.load }
    ensures done { result.whole ≡ true
        → DoneBy ⟦<RunLink<H> as Link>⟧ (kept_up_from team.old.load number) result
        team.old team.new }
    ensures same { IsSame team.old team.new }
    ensures unstarted { result.whole ≡ false → IsUnstarted result.failure }
    ensures cloned { result.failure ≡ None → IsSome result.cloned }
    ensures thread { result.failure ≡ Some failure.Thread → Rose crew.old crew.new }
    ensures count { crew.old ≤ crew.new }
{
    let Some(upkeep) = UPKEEP.get(number) else {
        let outcome = write_from(team, crew, 0);
        team.halt();
        return outcome;
    };
    let Ok(job) = team.upkeep_job(*upkeep) else {
        return team.fail(Failure::Memory);
    };
    match job.start(crew) {
        Ok(ticket) => {
            let others = keep_up_from(team, crew, number + 1);
            let JobEnd { seat, ending } = crew.finish(ticket);
            team.donor.take_back(seat);
            others.with(Failure::of_ending(ending))
        }
        Err(refusal) => team.fail(Failure::of_start(refusal)),
    }
}

// Writes by the writers from this one on, while tasks fetch. Unless the clone is completed, the
// run is to end.
fn write_from<
    T: Threads,
    G: Gate + Send + Sync + Drop + 'static,
    H: Wait + Clock + Copy + Send + Sync + Drop + 'static,
>(team: &mut RunTeam<G, H>, crew: &mut Crew<T>, number: u32) -> Outcome
    requires load { IsLoad team.old.load }
    ensures done { result.whole ≡ true
        → DoneBy ⟦<RunLink<H> as Link>⟧ (written_from team.old.load number) result
        team.old team.new }
    ensures same { IsSame team.old team.new }
    ensures unstarted { result.whole ≡ false → IsUnstarted result.failure }
    ensures cloned { result.failure ≡ None → IsSome result.cloned }
    ensures thread { result.failure ≡ Some failure.Thread → Rose crew.old crew.new }
    ensures count { crew.old ≤ crew.new }
{
    if number >= team.load.writers {
        let outcome = fetch_from(team, crew, 0);
        if outcome.cloned.is_none() {
            team.halt();
        }
        return outcome;
    }
    let Ok(job) = team.writer_job(number) else {
        return team.fail(Failure::Memory);
    };
    match job.start(crew) {
        Ok(ticket) => {
            let others = write_from(team, crew, number + 1);
            let JobEnd { seat, ending } = crew.finish(ticket);
            team.donor.take_back(seat);
            others.with(Failure::of_writing(ending))
        }
        Err(refusal) => team.fail(Failure::of_start(refusal)),
    }
}

// Fetches by the tasks from this one on.
fn fetch_from<
    T: Threads,
    G: Gate + Send + Sync + Drop + 'static,
    H: Wait + Clock + Copy + Send + Sync + Drop + 'static,
>(team: &mut RunTeam<G, H>, crew: &mut Crew<T>, task: u8) -> Outcome
    ensures done { result.whole ≡ true
        → DoneBy ⟦<RunLink<H> as Link>⟧ (fetched_from team.old.load task) result
        team.old team.new }
    ensures same { IsSame team.old team.new }
    ensures unstarted { result.whole ≡ false → IsUnstarted result.failure }
    ensures cloned { task < team.old.load.tasks → result.failure ≡ None → IsSome result.cloned }
    ensures thread { result.failure ≡ Some failure.Thread → Rose crew.old crew.new }
    ensures count { crew.old ≤ crew.new }
{
    if task >= team.load.tasks {
        return Outcome::of_none();
    }
    let Ok(job) = team.fetch_job(task) else {
        return team.fail(Failure::Memory);
    };
    match start_fetch(crew, job) {
        Ok(ticket) => {
            let others = fetch_from(team, crew, task + 1);
            let FetchJobEnd {
                seat,
                desk,
                watch,
                end,
            } = crew.finish(ticket);
            team.recipient.take_back(seat);
            team.desk.take_back(desk);
            team.donor.take_back(watch);
            others.with_task(end)
        }
        Err(refusal) => team.fail(Failure::of_start(refusal)),
    }
}
