//! A clone of a walk from its session to its end, and the rows that it has.

use crate::walk::beside::Walk;
use crate::walk::copying::{StageCopy, copy_stage};
use crate::walk::counts::count;
use crate::walk::requester::Requester;
use clone_chunk::Stage;
use clone_donor::Donor;
use clone_memdisk::MemDisk;
use clone_model::Value;
use clone_recover::{Recovered, open_rows, recover};
use clone_session::{Caller, Hello, StageInfo, Stop};
use std::alloc::Global;
use std::process::Abort;
use std::test::Fail;

// So many steps that a chain may get longer.
const FAR: u32 = 80;

/// What the plain program has at the stop: its rows, and how many commits and drops there were.
#[derive(Drop)]
struct Expected {
    rows: Vec<(u32, u64, Value)>,
    position: u64,
    drops: u64,
}

impl Expected {
    fn of(walk: &Walk) -> Result<Expected, Fail> {
        Ok(Expected {
            rows: walk.plain.rows()?,
            position: walk.plain.position,
            drops: walk.plain.drops,
        })
    }
}

/// Takes a clone, recovers it, and compares its rows.
pub fn take_clone(
    rt: &impl Abort,
    donor: &mut Donor<MemDisk>,
    walk: &mut Walk,
    session: u64,
) -> Result<(), Fail> {
    let caller = Caller {
        session,
        incarnation: 1,
        task: 0,
    };
    let requester = copy_files(rt, donor, walk, caller)?;
    let requester = copy_pages(rt, donor, walk, caller, requester)?;
    let expected = Expected::of(walk)?;
    let info = stop(rt, donor, walk, caller, &expected)?;
    let requester = copy_redo(rt, donor, walk, &info, caller, requester)?;
    leave(rt, donor, walk, caller, &expected)?;
    expect_rows(rt, walk.alloc, requester, &info, &expected)
}

// The session begins, and files are copied.
fn copy_files(
    rt: &impl Abort,
    donor: &mut Donor<MemDisk>,
    walk: &mut Walk,
    caller: Caller,
) -> Result<Requester, Fail> {
    let hello = Hello {
        version: 1,
        page_size: 4096,
        compress: false,
        tasks: 1,
        session: caller.session,
        incarnation: caller.incarnation,
    };
    let info = donor.init(walk.alloc, &hello).ok().ok_or("no session")?;
    assert!(rt; info.plan.stage() == Stage::FileCopy);
    walk.stage = 1;
    let requester = Requester::begin(walk.alloc, &info)?;
    let copy = StageCopy {
        caller,
        stage: 1,
        checkpoint: 0,
    };
    copy_stage(rt, donor, walk, copy, requester)
}

// The pages are copied that were written meanwhile.
fn copy_pages(
    rt: &impl Abort,
    donor: &mut Donor<MemDisk>,
    walk: &mut Walk,
    caller: Caller,
    requester: Requester,
) -> Result<Requester, Fail> {
    let acked = donor.ack(walk.alloc, caller, 1, 0);
    let info = acked.ok().ok_or("no copy of pages")?;
    assert!(rt; info.plan.stage() == Stage::PageCopy);
    let requester = requester.with_rooms(&info)?;
    walk.stage = 2;
    walk.go(rt, donor, FAR)?;
    let copy = StageCopy {
        caller,
        stage: 2,
        checkpoint: 0,
    };
    let requester = copy_stage(rt, donor, walk, copy, requester)?;
    walk.go(rt, donor, FAR)?;
    Ok(requester)
}

// The stop, with the last number of commits as the floor.
fn stop(
    rt: &impl Abort,
    donor: &mut Donor<MemDisk>,
    walk: &mut Walk,
    caller: Caller,
    expected: &Expected,
) -> Result<StageInfo, Fail> {
    let end = donor.end();
    let acked = donor.ack(walk.alloc, caller, 2, donor.look());
    let info = acked.ok().ok_or("no copy of redo")?;
    assert!(rt; info.plan.stage() == Stage::RedoCopy);
    assert_eq!(rt;
        (info.plan.position(), info.plan.lsn()),
        (expected.position, end)
    );
    walk.stage = 3;
    Ok(info)
}

// The redo up to the stop is copied.
fn copy_redo(
    rt: &impl Abort,
    donor: &mut Donor<MemDisk>,
    walk: &mut Walk,
    info: &StageInfo,
    caller: Caller,
    requester: Requester,
) -> Result<Requester, Fail> {
    walk.go(rt, donor, FAR)?;
    let copy = StageCopy {
        caller,
        stage: 3,
        checkpoint: info.plan.checkpoint(),
    };
    let requester = copy_stage(rt, donor, walk, copy, requester)?;
    let acked = donor.ack(walk.alloc, caller, 3, 0);
    let done = acked.ok().ok_or("not done")?;
    assert!(rt; done.plan.stage() == Stage::Done);
    Ok(requester)
}

// The requester leaves. The stop stays.
fn leave(
    rt: &impl Abort,
    donor: &mut Donor<MemDisk>,
    walk: &mut Walk,
    caller: Caller,
    expected: &Expected,
) -> Result<(), Fail> {
    walk.go(rt, donor, FAR)?;
    assert!(rt; donor.exit(caller).is_ok());
    let stop = Stop {
        session: caller.session,
        position: expected.position,
        drops: expected.drops,
    };
    assert_eq!(rt; (donor.session(), donor.stop()), (None, Some(stop)));
    walk.stage = 0;
    count(&mut walk.counts.clones);
    Ok(())
}

// The clone is recovered, and has exactly the rows of the plain program at the stop.
fn expect_rows(
    rt: &impl Abort,
    alloc: Global,
    requester: Requester,
    info: &StageInfo,
    expected: &Expected,
) -> Result<(), Fail> {
    let mut disk = requester.complete(info)?;
    let recovered = Recovered {
        lsn: info.plan.lsn(),
        position: expected.position,
    };
    assert!(rt; recover(alloc, &mut disk) == Ok(recovered));
    let found = open_rows(alloc, &mut disk).ok().ok_or("no rows")?;
    assert!(rt; found.as_slice() == expected.rows.as_slice());
    Ok(())
}
