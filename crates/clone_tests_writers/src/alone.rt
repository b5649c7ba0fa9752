//! Jobs that run one after the other, in the test's own thread.
ghost use Rattle.std.specs.Prelude.{◌<◌, ◌≤◌};
ghost use Rattle.clone_workload.specs.declared.generator.TheConstants.{INDEX_LIMIT};

use crate::expected::{Stream, found};
use crate::shared::{Machine, halt, opened, share};
use clone_hub::Hub;
use clone_jobs::{Ending, JobEnd, Upkeep, UpkeepJob, WriterJob};
use clone_model::Config;
use clone_outside::{DiskOrder, NoGate};
use std::alloc::Global;
use std::sync::{Arc, Wait};
use std::test::Fail;
use std::time::Clock;

const STREAM: Stream = Stream {
    seed: 7,
    writer: 3,
    tables: 2,
};

const COUNT: u64 = 20;

// How a writer of the stream ends.
fn write<R: Wait + Clock + Copy + Drop>(
    rt: R,
    alloc: Global,
    hub: &mut Hub<Machine>,
) -> Result<Ending, Fail> {
    let (cell, seat) = hub.lend()?;
    let job = WriterJob {
        cell,
        seat,
        seed: STREAM.seed,
        number: STREAM.writer,
        tables: STREAM.tables,
        count: COUNT,
        gate: Arc::new(alloc, NoGate)?,
        alloc,
        rt,
    };
    let JobEnd { seat: _, ending } = job.run();
    Ok(ending)
}

// How a flusher, a checkpointer or an archiver ends.
fn keep_up<R: Wait + Clock + Copy + Drop>(
    rt: R,
    alloc: Global,
    hub: &mut Hub<Machine>,
    upkeep: Upkeep,
) -> Result<Ending, Fail> {
    let (cell, seat) = hub.lend()?;
    let job = UpkeepJob {
        cell,
        seat,
        upkeep,
        gate: Arc::new(alloc, NoGate)?,
        rt,
    };
    let JobEnd { seat: _, ending } = job.run();
    Ok(ending)
}

// How many commits the donor has.
fn count_commits<R: Wait>(rt: &R, hub: Hub<Machine>) -> usize {
    let donor = hub.close(rt).into_donor();
    let commits = donor.binlog().len();
    let _disk = donor.into_disk();
    commits
}

#[test]
fn a_writer_alone_writes_its_stream(rt: HostRuntime) -> Result<(), Fail> {
    let alloc = rt.alloc();
    let donor = opened(alloc, Config::usual(), STREAM.tables)?;
    let mut hub = share(&rt, alloc, donor)?;
    assert_eq!(rt; write(rt, alloc, &mut hub)?, Ending::Done);
    let mut donor = hub.close(&rt).into_donor();
    let found = found(alloc, STREAM, &mut donor);
    let _disk = donor.into_disk();
    assert_eq!(rt; found?, (Some(COUNT), true));
    Ok(())
}

#[test]
fn jobs_of_a_run_that_is_over_do_nothing(rt: HostRuntime) -> Result<(), Fail> {
    let alloc = rt.alloc();
    let donor = opened(alloc, Config::usual(), STREAM.tables)?;
    let mut hub = share(&rt, alloc, donor)?;
    halt(&rt, &mut hub);
    assert_eq!(rt; write(rt, alloc, &mut hub)?, Ending::Halted);
    assert_eq!(rt;
        keep_up(rt, alloc, &mut hub, Upkeep::Flusher)?,
        Ending::Halted
    );
    assert_eq!(rt; count_commits(&rt, hub), 0);
    Ok(())
}

// The first write of the flusher fails, which ends it and the run.
#[test]
fn a_disk_that_fails_ends_the_run(rt: HostRuntime) -> Result<(), Fail> {
    let alloc = rt.alloc();
    let mut donor = opened(alloc, Config::usual(), STREAM.tables)?;
    let ordered = donor.order(DiskOrder::FailAt { call: 1 });
    let mut hub = share(&rt, alloc, donor)?;
    ordered?;
    assert_eq!(rt;
        keep_up(rt, alloc, &mut hub, Upkeep::Flusher)?,
        Ending::DiskFault
    );
    assert_eq!(rt;
        keep_up(rt, alloc, &mut hub, Upkeep::Checkpointer)?,
        Ending::Halted
    );
    assert_eq!(rt;
        keep_up(rt, alloc, &mut hub, Upkeep::Archiver)?,
        Ending::Halted
    );
    assert_eq!(rt; write(rt, alloc, &mut hub)?, Ending::Halted);
    assert_eq!(rt; count_commits(&rt, hub), 0);
    Ok(())
}
