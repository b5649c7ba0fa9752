//! Two writers in threads, with a flusher and a checkpointer beside them.
ghost use Rattle.std.specs.Prelude.{◌<◌, ◌≤◌};
ghost use Rattle.clone_model.specs.Config.{IsConfig};
ghost use Rattle.clone_workload.specs.declared.generator.TheConstants.{INDEX_LIMIT};

use crate::expected::{Stream, found_of};
use crate::shared::{Machine, halt, opened, share};
use clone_hub::Hub;
use clone_jobs::{Ending, JobEnd, Upkeep, UpkeepJob, WriterJob};
use clone_memdisk::MemDisk;
use clone_model::Config;
use clone_outside::{Crew, NoGate, Refusal, Ticket};
use std::alloc::Global;
use std::sync::{Arc, Wait};
use std::test::Fail;
use std::thread::Threads;
use std::time::Clock;

const ONE: Stream = Stream {
    seed: 7,
    writer: 0,
    tables: 2,
};

const TWO: Stream = Stream {
    seed: 7,
    writer: 1,
    tables: 2,
};

// So many that the log, which has little room, is full again and again.
const COUNT: u64 = 100;

const LITTLE: Config = Config {
    pool: 16,
    ring: 65_536,
};

type WriterTicket<R> = Ticket<WriterJob<MemDisk, NoGate, R>>;

type UpkeepTicket<R> = Ticket<UpkeepJob<MemDisk, NoGate, R>>;

// Starts a writer of the stream.
fn start_writer<R: Threads + Wait + Clock + Copy + Send + Drop + 'static>(
    rt: R,
    alloc: Global,
    crew: &mut Crew<R>,
    hub: &mut Hub<Machine>,
    stream: Stream,
) -> Result<WriterTicket<R>, Refusal> {
    let (cell, seat) = hub.lend()?;
    let job = WriterJob {
        cell,
        seat,
        seed: stream.seed,
        number: stream.writer,
        tables: stream.tables,
        count: COUNT,
        gate: Arc::new(alloc, NoGate)?,
        alloc,
        rt,
    };
    job.start(crew)
}

// Starts a flusher, a checkpointer or an archiver.
fn start_upkeep<R: Threads + Wait + Clock + Copy + Send + Drop + 'static>(
    rt: R,
    alloc: Global,
    crew: &mut Crew<R>,
    hub: &mut Hub<Machine>,
    upkeep: Upkeep,
) -> Result<UpkeepTicket<R>, Refusal> {
    let (cell, seat) = hub.lend()?;
    let job = UpkeepJob {
        cell,
        seat,
        upkeep,
        gate: Arc::new(alloc, NoGate)?,
        rt,
    };
    job.start(crew)
}

// How a writer ended, if it was started.
fn finish_writer<R: Threads + Wait + Clock + Drop>(
    crew: &mut Crew<R>,
    started: Result<WriterTicket<R>, Refusal>,
) -> Result<Ending, Refusal> {
    let JobEnd { seat: _, ending } = crew.finish(started?);
    Ok(ending)
}

fn finish_upkeep<R: Threads + Wait + Clock + Drop>(
    crew: &mut Crew<R>,
    started: Result<UpkeepTicket<R>, Refusal>,
) -> Result<Ending, Refusal> {
    let JobEnd { seat: _, ending } = crew.finish(started?);
    Ok(ending)
}

// How two writers ended that ran in threads, and the flusher and the checkpointer.
fn write_by_two<R: Threads + Wait + Clock + Copy + Send + Drop + 'static>(
    rt: R,
    alloc: Global,
    hub: &mut Hub<Machine>,
) -> Result<[Ending; 4], Refusal> {
    let mut crew = Crew::new(rt);
    let flusher = start_upkeep(rt, alloc, &mut crew, hub, Upkeep::Flusher);
    let checkpointer = start_upkeep(rt, alloc, &mut crew, hub, Upkeep::Checkpointer);
    if flusher.is_err() || checkpointer.is_err() {
        halt(&rt, hub);
    }
    let one = start_writer(rt, alloc, &mut crew, hub, ONE);
    let two = start_writer(rt, alloc, &mut crew, hub, TWO);
    let one = finish_writer(&mut crew, one);
    let two = finish_writer(&mut crew, two);
    halt(&rt, hub);
    let flusher = finish_upkeep(&mut crew, flusher);
    let checkpointer = finish_upkeep(&mut crew, checkpointer);
    Ok([one?, two?, flusher?, checkpointer?])
}

#[test]
fn two_writers_write_their_streams(rt: HostRuntime) -> Result<(), Fail> {
    let alloc = rt.alloc();
    let mut hub = share(&rt, alloc, opened(alloc, LITTLE, 2)?)?;
    let [one, two, flusher, checkpointer] = write_by_two(rt, alloc, &mut hub)?;
    assert_eq!(rt; (one, two), (Ending::Done, Ending::Done));
    assert_eq!(rt; (flusher, checkpointer), (Ending::Halted, Ending::Halted));
    let mut donor = hub.close(&rt).into_donor();
    let commits = donor.binlog().len();
    let found = found_of(alloc, [ONE, TWO], &mut donor);
    let _disk = donor.into_disk();
    assert_eq!(rt; found?, ([Some(COUNT), Some(COUNT)], true));
    assert_eq!(rt; commits, 200);
    Ok(())
}
