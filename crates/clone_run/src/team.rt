//! What the jobs of a run share, and the jobs that are made of it.
ghost use Rattle.std.specs.Prelude.{◌≡◌, IfOk, List};
ghost use Rattle.std.specs.Arc.{arc_value};
ghost use Rattle.clone_turn.specs.Seats.{IsOf};
ghost use Rattle.clone_machine.specs.Running.{JobEntry};
ghost use Rattle.clone_machine.specs.declared.calls.JobAnswer.TheVariants as job_answer;
ghost use Rattle.clone_machine.specs.declared.calls.JobCall.TheVariants as job;
ghost use Rattle.clone_links.specs.Calling.{IsOneCall};
ghost use Rattle.clone_run.specs.Outcomes.{of_unstarted};
ghost use Rattle.clone_run.specs.Teams.{Gathered, no_parts, with_donor};
ghost use Rattle.clone_run.specs.Lending.{DonorIsLent, FetchIsLent, IsSame, ServeIsLent};

use crate::failure::Failure;
use crate::load::Load;
use crate::outcome::Outcome;
use clone_copying::{Caller, Fetcher};
use clone_desk::DeskMachine;
use clone_fetching::RecipientMachine;
use clone_hub::Hub;
use clone_jobs::{Upkeep, UpkeepJob, WriterJob};
use clone_links::Server;
use clone_machine::{DonorMachine, JobAnswer, JobCall};
use clone_outside::{Gate, Net, PageDisk};
use clone_task_jobs::{FetchJob, ServeJob};
use std::alloc::{AllocError, Global};
use std::marker::Model;
use std::sync::{Arc, Wait};
use std::time::Clock;

/// What the jobs of a run share.
#[derive(Drop)]
pub(crate) struct Team<
    D: PageDisk + Send + Drop,
    R: PageDisk + Send + Drop,
    N: Net + Send + Drop,
    G: Gate + Drop,
    H: Wait + Clock + Copy + Drop,
>
where
    N::End: Send + Drop,
{
    pub(crate) rt: H,
    pub(crate) alloc: Global,
    pub(crate) gate: Arc<G>,
    pub(crate) load: Load,
    pub(crate) donor: Hub<DonorMachine<D>>,
    pub(crate) recipient: Hub<RecipientMachine<R>>,
    pub(crate) desk: Hub<DeskMachine<N>>,
}

impl<
    D: PageDisk + Send + Drop,
    R: PageDisk + Send + Drop,
    N: Net + Send + Drop,
    G: Gate + Drop,
    H: Wait + Clock + Copy + Drop,
> Model for Team<D, R, N, G, H>
where
    N::End: Send + Drop,
{
    ghost use Rattle.std.specs.Coded.{codes};
    ghost use Rattle.clone_engine.specs.Codes.{engine_code};
    ghost use Rattle.clone_recipient.specs.Receptions.{sizes_code};
    ghost use Rattle.clone_track.specs.TrackedPages.{tracked_pages_code};
    ghost use Rattle.clone_run.specs.Teams.{Team};

    ghost Value = { Team N N.End R };

    ghost coded = { Prim.hlevel (codes, engine_code, tracked_pages_code, sizes_code, R.code) };

    ghost view = { λ t. record {
      load = t.load;
      donor = t.donor;
      recipient = t.recipient;
      desk = t.desk;
    } };
}

impl<
    D: PageDisk + Send + Drop,
    R: PageDisk + Send + Drop,
    N: Net + Send + Drop,
    G: Gate + Drop,
    H: Wait + Clock + Copy + Drop,
> Team<D, R, N, G, H>
where
    N::End: Send + Drop,
{
    /// The job that serves a task.
    pub(crate) fn serve_job(&mut self, task: u8) -> Result<ServeJob<D, N, G, H>, AllocError>
        ensures lent { IfOk result (λ job. ServeIsLent self.old job.server job.desk self.new) }
        ensures task { IfOk result (λ job. job.task ≡ task) }
        ensures same { IsSame self.old self.new }
    {
        let gate = self.gate()?;
        let (cell, seat) = self.donor.lend()?;
        let (desk, desk_seat) = self.desk.lend()?;
        Ok(ServeJob {
            server: Server::new(self.rt, cell, seat, task, gate),
            desk: Caller::new(self.rt, desk, desk_seat),
            task,
            alloc: self.alloc,
            rt: self.rt,
        })
    }

    /// The job that keeps this up.
    pub(crate) fn upkeep_job(&mut self, upkeep: Upkeep) -> Result<UpkeepJob<D, G, H>, AllocError>
        ensures lent { IfOk result
            (λ job. DonorIsLent self.old (arc_value job.cell) job.seat self.new) }
        ensures of { IfOk result (λ job. IsOf (arc_value job.cell) job.seat) }
        ensures work { IfOk result (λ job. job.upkeep ≡ upkeep) }
        ensures same { IsSame self.old self.new }
    {
        let gate = self.gate()?;
        let (cell, seat) = self.donor.lend()?;
        Ok(UpkeepJob {
            cell,
            seat,
            upkeep,
            gate,
            rt: self.rt,
        })
    }

    /// The job of a writer.
    pub(crate) fn writer_job(&mut self, number: u32) -> Result<WriterJob<D, G, H>, AllocError>
        ensures lent { IfOk result
            (λ job. DonorIsLent self.old (arc_value job.cell) job.seat self.new) }
        ensures of { IfOk result (λ job. IsOf (arc_value job.cell) job.seat) }
        ensures number { IfOk result (λ job. job.number ≡ number) }
        ensures load { IfOk result (λ job. (job.seed ≡ self.old.load.seed)
            × (job.tables ≡ self.old.load.tables) × (job.count ≡ self.old.load.transactions)) }
        ensures same { IsSame self.old self.new }
    {
        let gate = self.gate()?;
        let (cell, seat) = self.donor.lend()?;
        Ok(WriterJob {
            cell,
            seat,
            seed: self.load.seed,
            number,
            tables: self.load.tables,
            count: self.load.transactions,
            gate,
            alloc: self.alloc,
            rt: self.rt,
        })
    }

    /// The job that fetches for a task.
    pub(crate) fn fetch_job(&mut self, task: u8) -> Result<FetchJob<D, R, N, G, H>, AllocError>
        ensures lent { IfOk result
            (λ job. FetchIsLent self.old task job.fetcher job.desk job.watch self.new) }
        ensures same { IsSame self.old self.new }
    {
        let gate = self.gate()?;
        let (cell, seat) = self.recipient.lend()?;
        let (desk, desk_seat) = self.desk.lend()?;
        let (watch, watch_seat) = self.donor.lend()?;
        let recipient = Caller::new(self.rt, cell, seat);
        Ok(FetchJob {
            fetcher: Fetcher::new(self.rt, self.alloc, recipient, task, gate),
            desk: Caller::new(self.rt, desk, desk_seat),
            watch: Caller::new(self.rt, watch, watch_seat),
        })
    }

    fn gate(&self) -> Result<Arc<G>, AllocError> {
        match Arc::try_clone(&self.gate) {
            Ok(gate) => Ok(gate),
            Err(_) => Err(AllocError),
        }
    }

    /// A job isn't started. The run is to end.
    pub(crate) fn fail(&mut self, failure: Failure) -> Outcome
        ensures outcome { result ≡ of_unstarted failure }
        ensures same { IsSame self.old self.new }
    {
        self.halt();
        Outcome::of_unstarted(failure)
    }

    /// The run is to end.
    pub(crate) fn halt(&mut self)
        ensures halts { (made : List JobEntry) × IsOneCall job.Halt job_answer.Halt made
            × Gathered (with_donor no_parts made) self.old self.new }
        ensures same { IsSame self.old self.new }
    {
        let rt = self.rt;
        match self.donor.call(&rt, JobCall::Halt) {
            JobAnswer::Halt => {}
            _ => unreachable!(),
        }
    }
}
