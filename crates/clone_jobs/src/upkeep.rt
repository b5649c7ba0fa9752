//! The flusher, the checkpointer and the archiver: jobs that keep a donor going while writers and
//! a clone use it.
ghost use Rattle.std.specs.Prelude.{IfOk, ◌≡◌};
ghost use Rattle.std.specs.Arc.{arc_value};
ghost use Rattle.clone_outside.specs.Causes.{HasCause};
ghost use Rattle.clone_turn.specs.Seats.{IsOf};
ghost use Rattle.clone_turn.specs.Worked.{Worked};
ghost use Rattle.clone_jobs.specs.Said.{Says, said_in};
ghost use Rattle.clone_jobs.specs.Turns.{TakesTurn, stop_in};
ghost use Rattle.clone_jobs.specs.declared.upkeep.Upkeep.TheVariants.{Archiver, Checkpointer};
ghost use Rattle.clone_jobs.specs.Upkeep.{AreMade, FlushesOldest, IsUpkeep, KeepsUp, NeverDone, UpkeepTurn, flush_of, page_in};

use crate::ending::{Ending, stop_of};
use crate::job_end::JobEnd;
use crate::post::Post;
use clone_machine::DonorMachine;
use clone_outside::{Crew, Gate, PageDisk, Point, Refusal, Ticket, Work};
use clone_plain::{EngineAnswer, EngineCall, EngineRefusal};
use clone_turn::{Seat, TurnCell};
use std::snapshot::Snapshot;
use std::sync::{Arc, Wait};
use std::thread::Threads;
use std::time::Clock;

/// How many bytes of redo an archiver archives at most in one turn.
pub const ARCHIVED_AT_ONCE: u64 = 65_536;

/// What is to be done for a donor, turn after turn.
#[derive(Clone, Copy, Debug, PartialEq, Eq)]
pub enum Upkeep {
    /// The page that has waited for its flush the longest is flushed.
    Flusher,
    /// A checkpoint is taken.
    Checkpointer,
    /// Redo is archived for the clone that stands.
    Archiver,
}

/// A job that does this until the run is to end.
#[derive(Drop)]
pub struct UpkeepJob<D: PageDisk + Send + Drop, G: Gate, H: Wait + Clock> {
    pub cell: Arc<TurnCell<DonorMachine<D>>>,
    pub seat: Seat<DonorMachine<D>>,
    pub upkeep: Upkeep,
    pub gate: Arc<G>,
    pub rt: H,
}

impl<D: PageDisk + Send + Drop, G: Gate + Drop, H: Wait + Clock + Drop> Work
    for UpkeepJob<D, G, H> {
    type End = JobEnd<D>;

    ghost ends = { λ job end.
        Worked (λ made. IsUpkeep job.upkeep end.ending (said_in made)) job.seat end.seat };
}

impl<D: PageDisk + Send + Drop, G: Gate + Drop, H: Wait + Clock + Drop> UpkeepJob<D, G, H> {
    /// Does the work until the run is to end, the disk fails or memory runs out.
    pub fn run(self) -> JobEnd<D>
        requires { IsOf (arc_value self.cell) self.seat }
        ensures { Worked (λ made. IsUpkeep self.upkeep result.ending (said_in made))
            self.seat result.seat }
    {
        let UpkeepJob {
            cell,
            mut seat,
            upkeep,
            gate,
            rt,
        } = self;
        let post = Post {
            cell: &*cell,
            gate: &*gate,
            rt: &rt,
            point: upkeep.point(),
        };
        let ending = keep_up(&post, &mut seat, upkeep);
        JobEnd { seat, ending }
    }
}

impl<
    D: PageDisk + Send + Drop + 'static,
    G: Gate + Send + Sync + Drop + 'static,
    H: Wait + Clock + Send + Drop + 'static,
> UpkeepJob<D, G, H> {
    /// Starts the job in a thread of its own. The error is that no thread could be started; the job
    /// is dropped then.
    pub fn start<T: Threads>(self, crew: &mut Crew<T>) -> Result<Ticket<Self>, Refusal>
        requires { IsOf (arc_value self.cell) self.seat }
        ensures ticket { IfOk result (λ t. t ≡ self) }
        ensures cause { HasCause crew.old crew.new result }
    {
        let job = Snapshot::of(&self);
        crew.start(
            job,
            move || -> JobEnd<D>
                requires { IsOf (arc_value self.cell) self.seat }
                ensures { Worked (λ made. IsUpkeep self.upkeep result.ending (said_in made))
                    self.seat result.seat }
            { self.run() },
        )
    }
}

impl Upkeep {
    /// What the job passes after each call.
    fn point(self) -> Point {
        match self {
            Upkeep::Flusher => Point::Flusher,
            Upkeep::Checkpointer => Point::Checkpointer,
            Upkeep::Archiver => Point::Archiver,
        }
    }
}

/// Takes turns until the end.
fn keep_up<D: PageDisk + Send + Drop, G: Gate, H: Wait + Clock>(
    post: &Post<'_, D, G, H>,
    seat: &mut Seat<DonorMachine<D>>,
    upkeep: Upkeep,
) -> Ending
    requires { IsOf post.now.cell.now seat.old }
    ensures { Worked (λ made. IsUpkeep upkeep result (said_in made)) seat.old seat.new }
{
    for _ in post.rt.forever() {
        if let Some(ending) = turn(post, seat, upkeep) {
            return ending;
        }
    }
    unreachable!()
}

/// One turn, or the end.
fn turn<D: PageDisk + Send + Drop, G: Gate, H: Wait + Clock>(
    post: &Post<'_, D, G, H>,
    seat: &mut Seat<DonorMachine<D>>,
    upkeep: Upkeep,
) -> Option<Ending>
    requires { IsOf post.now.cell.now seat.old }
    ensures takes { Worked (λ made.
        TakesTurn (UpkeepTurn upkeep) NeverDone result tt (said_in made) tt) seat.old seat.new }
    ensures seat { IsOf post.now.cell.now seat.new }
{
    if post.is_halted(seat) {
        return Some(Ending::Halted);
    }
    let Some(ending) = work(post, seat, upkeep) else {
        return None;
    };
    post.halt(seat);
    Some(ending)
}

/// What is to be done in a turn.
fn work<D: PageDisk + Send + Drop, G: Gate, H: Wait + Clock>(
    post: &Post<'_, D, G, H>,
    seat: &mut Seat<DonorMachine<D>>,
    upkeep: Upkeep,
) -> Option<Ending>
    requires { IsOf post.now.cell.now seat.old }
    ensures made { Worked (λ made. KeepsUp upkeep (said_in made)
        × (result ≡ stop_in (said_in made))) seat.old seat.new }
    ensures seat { IsOf post.now.cell.now seat.new }
{
    match upkeep {
        Upkeep::Flusher => flush_oldest(post, seat),
        Upkeep::Checkpointer => checkpoint(post, seat),
        Upkeep::Archiver => archive(post, seat),
    }
}

/// Flushes the page that has waited the longest. Sleeps where none waits.
fn flush_oldest<D: PageDisk + Send + Drop, G: Gate, H: Wait + Clock>(
    post: &Post<'_, D, G, H>,
    seat: &mut Seat<DonorMachine<D>>,
) -> Option<Ending>
    requires { IsOf post.now.cell.now seat.old }
    ensures made { Worked (λ made. FlushesOldest (said_in made)
        × (result ≡ stop_in (said_in made))) seat.old seat.new }
    ensures seat { IsOf post.now.cell.now seat.new }
{
    let oldest = post.engine(seat, EngineCall::OldestDirty);
    match page_in(&oldest) {
        Some((space, page)) => flush(post, seat, space, page),
        None => {
            post.rest();
            stop_of(&oldest)
        }
    }
}

/// The page that the engine named, if it named one.
fn page_in(given: &Result<EngineAnswer, EngineRefusal>) -> Option<(u32, u32)>
    ensures { result ≡ page_in given.now }
{
    match given {
        Ok(EngineAnswer::OldestDirty { page }) => *page,
        _ => None,
    }
}

/// Flushes a page, as far as that isn't refused.
fn flush<D: PageDisk + Send + Drop, G: Gate, H: Wait + Clock>(
    post: &Post<'_, D, G, H>,
    seat: &mut Seat<DonorMachine<D>>,
    space: u32,
    page: u32,
) -> Option<Ending>
    requires { IsOf post.now.cell.now seat.old }
    ensures made { Worked (λ made. AreMade (flush_of (space, page)) (said_in made)
        × (result ≡ stop_in (said_in made))) seat.old seat.new }
    ensures seat { IsOf post.now.cell.now seat.new }
{
    let begun = post.engine(seat, EngineCall::FlushBegin { space, page });
    if begun.is_err() {
        return stop_of(&begun);
    }
    let half = post.engine(seat, EngineCall::FlushHalf { space, page });
    if half.is_err() {
        return stop_of(&half);
    }
    stop_of(&post.engine(seat, EngineCall::FlushLand { space, page }))
}

/// Takes a checkpoint, and sleeps.
fn checkpoint<D: PageDisk + Send + Drop, G: Gate, H: Wait + Clock>(
    post: &Post<'_, D, G, H>,
    seat: &mut Seat<DonorMachine<D>>,
) -> Option<Ending>
    requires { IsOf post.now.cell.now seat.old }
    ensures made { Worked (λ made. KeepsUp Checkpointer (said_in made)
        × (result ≡ stop_in (said_in made))) seat.old seat.new }
    ensures seat { IsOf post.now.cell.now seat.new }
{
    let taken = post.engine(seat, EngineCall::Checkpoint);
    post.rest();
    stop_of(&taken)
}

/// Archives some redo, and sleeps.
fn archive<D: PageDisk + Send + Drop, G: Gate, H: Wait + Clock>(
    post: &Post<'_, D, G, H>,
    seat: &mut Seat<DonorMachine<D>>,
) -> Option<Ending>
    requires { IsOf post.now.cell.now seat.old }
    ensures made { Worked (λ made. KeepsUp Archiver (said_in made)
        × (result ≡ stop_in (said_in made))) seat.old seat.new }
    ensures seat { IsOf post.now.cell.now seat.new }
{
    let reached = post.archive(seat, ARCHIVED_AT_ONCE);
    post.rest();
    match reached {
        Ok(_) => None,
        Err(_) => Some(Ending::NoMemory),
    }
}
