//! The writer: a job that commits the transactions of its stream, one after the other.
ghost use Rattle.std.specs.Prelude.{IfOk, None, Some, ◌≡◌, ◌<◌, ◌≤◌, ◌⊎◌};
ghost use Rattle.std.specs.Arc.{arc_value};
ghost use Rattle.clone_outside.specs.Causes.{HasCause};
ghost use Rattle.clone_turn.specs.Seats.{IsOf};
ghost use Rattle.clone_turn.specs.Worked.{Worked};
ghost use Rattle.clone_workload.specs.declared.generator.TheConstants.{INDEX_LIMIT};
ghost use Rattle.clone_writer.specs.Writers.{Writer, starting, told};
ghost use Rattle.clone_jobs.specs.Said.{said_in};
ghost use Rattle.clone_jobs.specs.Turns.{TakesTurn, stop_of};
ghost use Rattle.clone_jobs.specs.declared.ending.Ending.TheVariants.{NoMemory};
ghost use Rattle.clone_jobs.specs.Writing.{HasWritten, WriterTurn, Writes};

use crate::ending::{Ending, stop_of};
use crate::job_end::JobEnd;
use crate::post::Post;
use clone_machine::DonorMachine;
use clone_outside::{Crew, Gate, PageDisk, Point, Refusal, Ticket, Work};
use clone_plain::{Cause, EngineAnswer, EngineRefusal, Undone};
use clone_turn::{Seat, TurnCell};
use clone_writer::Writer;
use std::alloc::Global;
use std::snapshot::Snapshot;
use std::sync::{Arc, Wait};
use std::thread::Threads;
use std::time::Clock;

/// A job that commits so many transactions, which the seed gives the writer of this number on
/// tables from 1 to `tables`.
#[derive(Drop)]
pub struct WriterJob<D: PageDisk + Send + Drop, G: Gate, H: Wait + Clock> {
    pub cell: Arc<TurnCell<DonorMachine<D>>>,
    pub seat: Seat<DonorMachine<D>>,
    pub seed: u64,
    pub number: u32,
    pub tables: u32,
    pub count: u64,
    pub gate: Arc<G>,
    pub alloc: Global,
    pub rt: H,
}

impl<D: PageDisk + Send + Drop, G: Gate + Drop, H: Wait + Clock + Drop> Work
    for WriterJob<D, G, H> {
    ghost use Rattle.clone_writer.specs.Writers.{Writer, starting};
    ghost use Rattle.clone_jobs.specs.Writing.{Writes};

    type End = JobEnd<D>;

    ghost ends = { λ job end.
        Worked (λ made. (w : Writer)
        × Writes end.ending (starting job.seed job.number job.tables job.count) (said_in made) w)
        job.seat end.seat };
}

impl<D: PageDisk + Send + Drop, G: Gate + Drop, H: Wait + Clock + Drop> WriterJob<D, G, H> {
    /// Commits the transactions, unless the run is to end, the disk fails or memory runs out.
    pub fn run(self) -> JobEnd<D>
        requires seat { IsOf (arc_value self.cell) self.seat }
        requires tables { 0 < self.tables }
        requires count { self.count ≤ INDEX_LIMIT }
        ensures { Worked (λ made. (w : Writer)
            × Writes result.ending (starting self.seed self.number self.tables self.count)
            (said_in made) w) self.seat result.seat }
    {
        let WriterJob {
            cell,
            mut seat,
            seed,
            number,
            tables,
            count,
            gate,
            alloc,
            rt,
        } = self;
        let post = Post {
            cell: &*cell,
            gate: &*gate,
            rt: &rt,
            point: Point::Writer(number),
        };
        let mut writer = Writer::new(alloc, seed, number, tables, count);
        let ending = write_all(&post, &mut seat, alloc, &mut writer);
        JobEnd { seat, ending }
    }
}

impl<
    D: PageDisk + Send + Drop + 'static,
    G: Gate + Send + Sync + Drop + 'static,
    H: Wait + Clock + Send + Drop + 'static,
> WriterJob<D, G, H> {
    /// Starts the job in a thread of its own. The error is that no thread could be started; the job
    /// is dropped then.
    pub fn start<T: Threads>(self, crew: &mut Crew<T>) -> Result<Ticket<Self>, Refusal>
        requires seat { IsOf (arc_value self.cell) self.seat }
        requires tables { 0 < self.tables }
        requires count { self.count ≤ INDEX_LIMIT }
        ensures ticket { IfOk result (λ t. t ≡ self) }
        ensures cause { HasCause crew.old crew.new result }
    {
        let job = Snapshot::of(&self);
        crew.start(
            job,
            move || -> JobEnd<D>
                requires { IsOf (arc_value self.cell) self.seat × (0 < self.tables)
                    × (self.count ≤ INDEX_LIMIT) }
                ensures { Worked (λ made. (w : Writer)
                    × Writes result.ending
                    (starting self.seed self.number self.tables self.count) (said_in made) w)
                    self.seat result.seat }
            { self.run() },
        )
    }
}

/// Takes turns until the end.
fn write_all<D: PageDisk + Send + Drop, G: Gate, H: Wait + Clock>(
    post: &Post<'_, D, G, H>,
    seat: &mut Seat<DonorMachine<D>>,
    alloc: Global,
    writer: &mut Writer,
) -> Ending
    requires { IsOf post.now.cell.now seat.old }
    ensures { Worked (λ made. (w : Writer) × Writes result writer.old (said_in made) w)
        seat.old seat.new }
{
    for _ in post.rt.forever() {
        if let Some(ending) = turn(post, seat, alloc, writer) {
            return ending;
        }
    }
    unreachable!()
}

/// One turn, or the end.
fn turn<D: PageDisk + Send + Drop, G: Gate, H: Wait + Clock>(
    post: &Post<'_, D, G, H>,
    seat: &mut Seat<DonorMachine<D>>,
    alloc: Global,
    writer: &mut Writer,
) -> Option<Ending>
    requires { IsOf post.now.cell.now seat.old }
    ensures takes { Worked (λ made. (w : Writer)
        × TakesTurn WriterTurn HasWritten result writer.old (said_in made) w
        × (result ≡ None → w ≡ writer.new)) seat.old seat.new }
    ensures seat { IsOf post.now.cell.now seat.new }
{
    let Some(call) = writer.next() else {
        return Some(Ending::Done);
    };
    if post.is_halted(seat) {
        return Some(Ending::Halted);
    }
    let given = post.engine(seat, call);
    let Some(ending) = hear(writer, alloc, &given) else {
        if is_to_wait(&given) {
            post.rest();
        }
        return None;
    };
    post.halt(seat);
    Some(ending)
}

/// The writer takes the answer to its call. Answers the end that this brings to the job, if it
/// brings one.
fn hear(
    writer: &mut Writer,
    alloc: Global,
    given: &Result<EngineAnswer, EngineRefusal>,
) -> Option<Ending>
    ensures told { result ≡ None → writer.new ≡ told writer.old given.now }
    ensures cause { (result ≡ Some NoMemory) ⊎ (result ≡ stop_of given.now) }
{
    match writer.take(alloc, given) {
        Ok(()) => stop_of(given),
        Err(_) => Some(Ending::NoMemory),
    }
}

/// Whether what was asked has to wait for others: there was no room for it, or the transaction that
/// met a lock is to begin again.
fn is_to_wait(given: &Result<EngineAnswer, EngineRefusal>) -> bool {
    match given {
        Ok(EngineAnswer::UndoOne { undone }) => *undone == Undone::Ended,
        Ok(_) | Err(EngineRefusal::Because(Cause::RowLocked { .. })) => false,
        Err(_) => true,
    }
}
