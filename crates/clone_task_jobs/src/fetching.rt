//! The requester's side of a task.
ghost use Rattle.std.specs.Prelude.{◌≡◌, false};
ghost use Rattle.clone_turn.specs.Worked.{Worked};
ghost use Rattle.clone_task_jobs.specs.Fetching.{FetchesTask, HaltsUnless, is_complete};

use clone_copying::{Caller, FetchEnd, Fetcher};
use clone_desk::DeskMachine;
use clone_fetching::{CloneEnded, RecipientMachine};
use clone_machine::{DonorMachine, JobCall};
use clone_outside::{Gate, Net, PageDisk, Work};
use clone_turn::Seat;
use std::sync::Wait;

/// A job that fetches for a task. It watches the donor's position and whether the run is to end.
#[derive(Drop)]
pub struct FetchJob<
    D: PageDisk + Send + Drop,
    R: PageDisk + Send + Drop,
    N: Net + Send + Drop,
    G: Gate,
    H: Wait,
>
where
    N::End: Send + Drop,
{
    pub fetcher: Fetcher<R, G, H>,
    pub desk: Caller<DeskMachine<N>, H>,
    pub watch: Caller<DonorMachine<D>, H>,
}

/// What such a job hands back: its seats, and how it ended.
#[derive(Drop)]
pub struct FetchJobEnd<D: PageDisk + Send + Drop, R: PageDisk + Send + Drop, N: Net + Send + Drop>
where
    N::End: Send + Drop,
{
    pub seat: Seat<RecipientMachine<R>>,
    pub desk: Seat<DeskMachine<N>>,
    pub watch: Seat<DonorMachine<D>>,
    pub end: FetchEnd,
}

impl<
    D: PageDisk + Send + Drop,
    R: PageDisk + Send + Drop,
    N: Net + Send + Drop,
    G: Gate + Drop,
    H: Wait + Drop,
> Work for FetchJob<D, R, N, G, H>
where
    N::End: Send + Drop,
{
    ghost use Rattle.clone_task_jobs.specs.Fetching.{FetchesTask};

    type End = FetchJobEnd<D, R, N>;

    ghost ends = { λ job end. FetchesTask N.End.Link job.fetcher end.seat job.desk end.desk
        job.watch end.watch end.end };
}

impl<
    D: PageDisk + Send + Drop,
    R: PageDisk + Send + Drop,
    N: Net + Send + Drop,
    G: Gate + Drop,
    H: Wait + Copy + Drop,
> FetchJob<D, R, N, G, H>
where
    N::End: Send + Drop,
{
    /// Fetches until the clone has ended, the run is halted, or something failed. Unless the clone
    /// is complete the run is to end then.
    pub fn run(self) -> FetchJobEnd<D, R, N>
        ensures { FetchesTask N.End.Link self.fetcher result.seat self.desk result.desk
            self.watch result.watch result.end }
    {
        let FetchJob {
            mut fetcher,
            mut desk,
            mut watch,
        } = self;
        let end = fetcher.fetch(&mut desk, &mut watch);
        halt_unless(is_complete(&end), &mut watch);
        FetchJobEnd {
            seat: fetcher.into_seat(),
            desk: desk.into_seat(),
            watch: watch.into_seat(),
            end,
        }
    }
}

/// Unless the clone is complete the run is to end.
fn halt_unless<D: PageDisk + Send + Drop, H: Wait>(
    complete: bool,
    watch: &mut Caller<DonorMachine<D>, H>,
)
    ensures { Worked (HaltsUnless complete) watch.old watch.new }
{
    if !complete {
        halt(watch);
    }
}

/// The run is to end.
fn halt<D: PageDisk + Send + Drop, H: Wait>(watch: &mut Caller<DonorMachine<D>, H>)
    ensures { Worked (HaltsUnless false) watch.old watch.new }
{
    let _halted = watch.call(JobCall::Halt);
}

/// Whether the clone is complete.
fn is_complete(end: &FetchEnd) -> bool
    ensures { result ≡ is_complete end.now }
{
    matches!(end, FetchEnd::Ended(CloneEnded::Complete { .. }))
}
