//! The donor's side of a task, connection after connection.
ghost use Rattle.std.specs.Prelude.{◌≡◌};
ghost use Rattle.clone_task_jobs.specs.Serving.{ServesOne, ServesTask, ending_of};

use crate::desk::{give_back, take_end};
use clone_copying::Caller;
use clone_desk::DeskMachine;
use clone_jobs::Ending;
use clone_links::{ServeEnd, Server};
use clone_machine::DonorMachine;
use clone_outside::{Gate, Link, Net, PageDisk, Work};
use clone_turn::Seat;
use std::alloc::Global;
use std::sync::Wait;

/// A job that serves the connections of a task, in the order in which the task made them.
#[derive(Drop)]
pub struct ServeJob<D: PageDisk + Send + Drop, N: Net + Send + Drop, G: Gate, H: Wait>
where
    N::End: Send + Drop,
{
    pub server: Server<D, G, H>,
    pub desk: Caller<DeskMachine<N>, H>,
    pub task: u8,
    pub alloc: Global,
    pub rt: H,
}

/// What such a job hands back: its seats, and how it ended.
#[derive(Drop)]
pub struct ServeJobEnd<D: PageDisk + Send + Drop, N: Net + Send + Drop>
where
    N::End: Send + Drop,
{
    pub seat: Seat<DonorMachine<D>>,
    pub desk: Seat<DeskMachine<N>>,
    pub ending: Ending,
}

impl<D: PageDisk + Send + Drop, N: Net + Send + Drop, G: Gate + Drop, H: Wait + Drop> Work
    for ServeJob<D, N, G, H>
where
    N::End: Send + Drop,
{
    ghost use Rattle.clone_task_jobs.specs.Serving.{ServesTask};

    type End = ServeJobEnd<D, N>;

    ghost ends = { λ job end. ServesTask N.End.Link job.task end.ending
        job.server.seat end.seat job.desk end.desk };
}

impl<
    D: PageDisk + Send + Drop,
    N: Net + Send + Drop,
    G: Gate + Drop,
    H: Wait + Copy + Drop,
> ServeJob<D, N, G, H>
where
    N::End: Send + Drop,
{
    /// Serves until the run is to end, the donor's disk fails or memory runs out.
    pub fn run(self) -> ServeJobEnd<D, N>
        ensures { ServesTask N.End.Link self.task result.ending
            self.server.seat result.seat self.desk result.desk }
    {
        let ServeJob {
            mut server,
            mut desk,
            task,
            alloc,
            rt,
        } = self;
        let ending = serve_all(rt, alloc, &mut server, &mut desk, task);
        ServeJobEnd {
            seat: server.into_seat(),
            desk: desk.into_seat(),
            ending,
        }
    }
}

/// Serves connection after connection, until the end.
fn serve_all<D: PageDisk + Send + Drop, N: Net + Send + Drop, G: Gate, H: Wait + Copy>(
    rt: H,
    alloc: Global,
    server: &mut Server<D, G, H>,
    desk: &mut Caller<DeskMachine<N>, H>,
    task: u8,
) -> Ending
where
    N::End: Send + Drop,
    ensures { ServesTask N.End.Link task result server.old.seat server.new.seat desk.old desk.new }
{
    for _ in rt.forever() {
        if let Some(ending) = serve_next(alloc, server, desk, task) {
            return ending;
        }
    }
    unreachable!()
}

/// Serves the next connection, or sleeps where none waits. The answer is the job's end.
fn serve_next<D: PageDisk + Send + Drop, N: Net + Send + Drop, G: Gate, H: Wait + Copy>(
    alloc: Global,
    server: &mut Server<D, G, H>,
    desk: &mut Caller<DeskMachine<N>, H>,
    task: u8,
) -> Option<Ending>
where
    N::End: Send + Drop,
    ensures { ServesOne N.End.Link task result server.old.seat server.new.seat desk.old desk.new }
{
    if server.is_halted() {
        return Some(Ending::Halted);
    }
    let Some((place, mut end)) = take_end(desk, task) else {
        server.rest();
        return None;
    };
    let served = server.serve(alloc, &mut end);
    end.close();
    give_back(desk, place, end);
    let ending = ending_of(&served);
    if ending.is_some() {
        server.halt();
    }
    ending
}

/// The end that the end of a connection brings to the job, if it brings one.
fn ending_of(served: &ServeEnd) -> Option<Ending>
    ensures { result ≡ ending_of served.now }
{
    match served {
        ServeEnd::DiskFault => Some(Ending::DiskFault),
        ServeEnd::NoMemory => Some(Ending::NoMemory),
        _ => None,
    }
}
