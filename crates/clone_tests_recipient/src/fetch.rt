//! A task's steps over a recipient whose disk is in memory, each rule once. The bytes are those of
//! session 1, of one task that speaks version 1. What was looked up is position 7.
ghost use Rattle.std.specs.Prelude.{◌≤◌};
ghost use Rattle.clone_memdisk.specs.Stored.{state_of};
ghost use Rattle.clone_fetch.specs.Fetching.{KnowsSizes};

use crate::stuck::Stuck;
use clone_fetch::{FetchCore, TaskAnswer};
use clone_memdisk::MemDisk;
use clone_outside::{DiskOrder, PageDisk};
use clone_recipient::Reception;
use clone_tasks::{CloneEnd, Link};
use std::alloc::Global;
use std::process::Abort;

const INIT: [u8; 25] = [
    1, 0, 0, 0, 20, 0, 1, 0, 0, 16, 0, 0, 1, 0, 0, 0, 0, 0, 0, 0, 1, 0, 0, 0, 1,
];

// INIT of the second incarnation.
const INIT_ANEW: [u8; 25] = [
    1, 0, 0, 0, 20, 0, 1, 0, 0, 16, 0, 0, 1, 0, 0, 0, 0, 0, 0, 0, 1, 0, 0, 0, 2,
];

const EXECUTE: [u8; 6] = [4, 0, 0, 0, 1, 1];

const EXIT: [u8; 5] = [6, 0, 0, 0, 0];

const ACK_1: [u8; 14] = [5, 0, 0, 0, 9, 1, 0, 0, 0, 0, 0, 0, 0, 7];

const ACK_2: [u8; 14] = [5, 0, 0, 0, 9, 2, 0, 0, 0, 0, 0, 0, 0, 7];

const ACK_3: [u8; 14] = [5, 0, 0, 0, 9, 3, 0, 0, 0, 0, 0, 0, 0, 7];

// The STAGEs of a clone that has no chunk, checkpoint and LSN 8192, position 3 and no space.
const STAGE_1: [u8; 48] = [
    16, 0, 0, 0, 43, 0, 0, 0, 0, 0, 0, 0, 1, 0, 0, 0, 1, 1, 0, 0, 0, 0, //
    0, 0, 0, 0, 0, 0, 0, 0, 0, 0, 0, 0, 0, 0, 0, 0, 0, 0, 0, 0, 0, 0, 0, 0, 0, 0,
];

const STAGE_2: [u8; 48] = [
    16, 0, 0, 0, 43, 0, 0, 0, 0, 0, 0, 0, 1, 0, 0, 0, 1, 2, 0, 0, 0, 0, //
    0, 0, 0, 0, 0, 0, 0, 0, 0, 0, 0, 0, 0, 0, 0, 0, 0, 0, 0, 0, 0, 0, 0, 0, 0, 0,
];

const STAGE_3: [u8; 48] = [
    16, 0, 0, 0, 43, 0, 0, 0, 0, 0, 0, 0, 1, 0, 0, 0, 1, 3, 0, 0, 0, 0, //
    0, 0, 0, 0, 0, 0, 32, 0, 0, 0, 0, 0, 0, 0, 32, 0, 0, 0, 0, 0, 0, 0, 0, 3, 0, 0,
];

const STAGE_4: [u8; 48] = [
    16, 0, 0, 0, 43, 0, 0, 0, 0, 0, 0, 0, 1, 0, 0, 0, 1, 4, 0, 0, 0, 0, //
    0, 0, 0, 0, 0, 0, 32, 0, 0, 0, 0, 0, 0, 0, 32, 0, 0, 0, 0, 0, 0, 0, 0, 3, 0, 0,
];

// One chunk of space 1, which has one page.
const ONE_PAGE: [u8; 56] = [
    16, 0, 0, 0, 51, 0, 0, 0, 0, 0, 0, 0, 1, 0, 0, 0, 1, 1, 0, 0, 0, 1, //
    0, 0, 0, 0, 0, 0, 0, 0, 0, 0, 0, 0, 0, 0, 0, 0, 0, 0, 0, 0, 0, 0, 0, 0, 0, 1, //
    0, 0, 0, 1, 0, 0, 0, 1,
];

// The front of a block of page 0 of space 1. The page comes after it.
const BLOCK: [u8; 32] = [
    17, 0, 0, 16, 27, 0, 0, 0, 0, 0, 0, 0, 1, 0, 0, 0, 1, 1, 0, 0, 0, 0, 0, 1, //
    0, 0, 0, 1, 0, 0, 0, 0,
];

const END: [u8; 18] = [19, 0, 0, 0, 13, 0, 0, 0, 0, 0, 0, 0, 1, 0, 0, 0, 1, 1];

// There is no such session.
const REFUSED: [u8; 22] = [
    20, 0, 0, 0, 17, 6, 0, 0, 0, 0, 0, 0, 0, 0, 0, 0, 0, 0, 0, 0, 0, 0,
];

// That in two pieces.
const REFUSED_FRONT: [u8; 2] = [20, 0];

const REFUSED_REST: [u8; 20] = [0, 0, 17, 6, 0, 0, 0, 0, 0, 0, 0, 0, 0, 0, 0, 0, 0, 0, 0, 0];

/// What came of a step.
#[derive(Clone, Copy, PartialEq, Eq)]
enum Came {
    Idle,
    Stale,
    /// A frame of this code was put out.
    Sent(u8),
    /// A frame of this code was taken.
    Took(u8),
    Lost(u32),
    Complete(u64, u64),
    Spent(u32),
    /// So many bytes are kept.
    Garbled(usize),
    Refused,
    DiskFault,
    NoMemory,
}

use Came::{Complete, Garbled, Idle, Lost, Sent, Spent, Stale, Took};

const ACK: Came = Sent(5);

fn came_of(answer: &TaskAnswer) -> Came {
    match answer {
        TaskAnswer::Idle => Idle,
        TaskAnswer::Stale => Stale,
        TaskAnswer::Sent { code } => Sent(*code),
        TaskAnswer::Took(took) => Took(took.code),
        TaskAnswer::Lost { losses } => Lost(*losses),
        TaskAnswer::NoMemory => Came::NoMemory,
        TaskAnswer::Ended(CloneEnd::Complete { lsn, position }) => Complete(*lsn, *position),
        TaskAnswer::Ended(CloneEnd::Spent { losses }) => Spent(*losses),
        TaskAnswer::Ended(CloneEnd::Garbled { kept }) => Garbled(kept.as_slice().len()),
        TaskAnswer::Ended(CloneEnd::Refused { .. }) => Came::Refused,
        TaskAnswer::Ended(CloneEnd::DiskFault) => Came::DiskFault,
    }
}

/// A task of a clone, the bytes that came for it and weren't taken, and those that it sent.
#[derive(Drop)]
struct Fetching {
    core: FetchCore,
    reception: Reception,
    disk: MemDisk,
    received: Vec<u8>,
    sent: Vec<u8>,
    ghost sized: { KnowsSizes reception (state_of disk) },
}

/// A step of a task: how its connection is, what comes first, what the step comes to, and what it
/// sends.
type Row = (Link, Comes, Came, &'static [u8]);

/// What comes for a task before its step.
#[derive(Clone, Copy)]
enum Comes {
    Nothing,
    Bytes(&'static [u8]),
    /// A page, each of whose bytes is 7.
    Page,
}

use Comes::{Bytes, Nothing};
use Link::{Absent, Up};

impl Fetching {
    // A clone that is let off so many losses begins.
    fn begin(alloc: Global, limit: u32) -> Result<Fetching, Stuck>
        requires { limit ≤ 16 }
    {
        let mut disk = MemDisk::new(alloc);
        let reception = Reception::begin(alloc, &mut disk, 1, 1, limit, 1)?;
        Ok(Fetching {
            core: FetchCore::new(),
            reception,
            disk,
            received: Vec::new(alloc),
            sent: Vec::new(alloc),
        })
    }

    // The task takes these steps.
    fn go(self, rt: &impl Abort, alloc: Global, rows: &[Row]) -> Result<Fetching, Stuck> {
        let mut task = self;
        for row in rows {
            let (link, comes, came, sends) = *row;
            let ready = task.is_ready(link);
            let (next, answer) = task.step(alloc, link, comes)?;
            task = next;
            assert!(rt; ready == (came == ACK) && came_of(&answer) == came);
            assert!(rt; task.sent.as_slice() == sends);
        }
        Ok(task)
    }

    // Whether the task would send an acknowledgement.
    fn is_ready(&self, link: Link) -> bool {
        self.core.ready(&self.reception, 0, link).is_some()
    }

    // One step, after these bytes came.
    fn step(
        self,
        alloc: Global,
        link: Link,
        comes: Comes,
    ) -> Result<(Fetching, TaskAnswer), Stuck> {
        let Fetching {
            mut core,
            mut reception,
            mut disk,
            mut received,
            mut sent,
        } = self;
        match comes {
            Nothing => {}
            Bytes(bytes) => received.extend_from_slice(bytes)?,
            Comes::Page => received.extend_from_slice(&[7; 4096])?,
        }
        sent.clear();
        let answer = core.step(
            alloc,
            &mut reception,
            &mut disk,
            0,
            link,
            7,
            &mut received,
            &mut sent,
        );
        if matches!(answer, TaskAnswer::NoMemory) {
            return Err(Stuck);
        }
        let task = Fetching {
            core,
            reception,
            disk,
            received,
            sent,
        };
        Ok((task, answer))
    }
}

// The task connects, awaits an answer, acknowledges each stage, completes, and is done.
const A_CLONE_OF_NOTHING: [Row; 11] = [
    (Absent, Nothing, Sent(1), &INIT),
    (Up, Nothing, Idle, &[]),
    (Up, Bytes(&STAGE_1), Took(16), &[]),
    (Up, Nothing, ACK, &ACK_1),
    (Up, Bytes(&STAGE_2), Took(16), &[]),
    (Up, Nothing, ACK, &ACK_2),
    (Up, Bytes(&STAGE_3), Took(16), &[]),
    (Up, Nothing, ACK, &ACK_3),
    (Up, Bytes(&STAGE_4), Took(16), &[]),
    (Up, Nothing, Complete(8192, 3), &EXIT),
    (Up, Nothing, Idle, &[]),
];

// The task asks for the blocks of a space of one page.
const ASKING: [Row; 3] = [
    (Absent, Nothing, Sent(1), &INIT),
    (Up, Bytes(&ONE_PAGE), Took(16), &[]),
    (Up, Nothing, Sent(4), &EXECUTE),
];

// Page 0 of space 1 in two pieces, of which the first is no whole frame, and END.
const IN_TWO_PIECES: [Row; 4] = [
    (Up, Bytes(&BLOCK), Idle, &[]),
    (Up, Comes::Page, Took(17), &[]),
    (Up, Bytes(&END), Took(19), &[]),
    (Up, Nothing, ACK, &ACK_1),
];

// What the donor refuses ends the clone.
const A_REFUSAL: [Row; 2] = [
    (Up, Bytes(&REFUSED), Came::Refused, &[]),
    (Up, Nothing, Idle, &[]),
];

// So does a fault of the disk.
const A_FAULT: [Row; 3] = [
    (Up, Bytes(&BLOCK), Idle, &[]),
    (Up, Comes::Page, Came::DiskFault, &[]),
    (Up, Nothing, Idle, &[]),
];

// A loss is found where no whole frame is there, and counted once. What came on the old connection
// isn't read any more.
const A_LOSS: [Row; 4] = [
    (Absent, Nothing, Sent(1), &INIT),
    (Link::Lost, Bytes(&REFUSED_FRONT), Lost(1), &[]),
    (Up, Bytes(&REFUSED_REST), Stale, &[]),
    (Link::Lost, Nothing, Stale, &[]),
];

// After more losses than the limit the clone ends.
const ONE_LOSS_MORE: [Row; 2] = [
    (Absent, Nothing, Sent(1), &INIT_ANEW),
    (Link::Lost, Nothing, Spent(2), &[]),
];

// A frame that isn't awaited ends the clone, and its first 16 bytes are kept.
const AN_END_OF_NOTHING: [Row; 2] = [
    (Absent, Nothing, Sent(1), &INIT),
    (Up, Bytes(&END), Garbled(16), &[]),
];

// Bytes that begin no frame end the clone, on a connection that is lost too.
const NO_FRAME: [Row; 2] = [
    (Absent, Nothing, Sent(1), &INIT),
    (Link::Lost, Bytes(&[1, 2, 3]), Garbled(3), &[]),
];

#[test]
fn a_clone_of_nothing(rt: HostRuntime) -> Result<(), Stuck> {
    let alloc = rt.alloc();
    let task = Fetching::begin(alloc, 0)?.go(&rt, alloc, &A_CLONE_OF_NOTHING)?;
    assert!(rt; task.received.is_empty());
    Ok(())
}

#[test]
fn a_block_in_two_pieces(rt: HostRuntime) -> Result<(), Stuck> {
    let alloc = rt.alloc();
    let task = Fetching::begin(alloc, 0)?.go(&rt, alloc, &ASKING)?;
    let task = task.go(&rt, alloc, &IN_TWO_PIECES)?;
    let mut disk = task.disk;
    assert!(rt; disk.pages(1)? == Some(1));
    Ok(())
}

#[test]
fn a_refusal(rt: HostRuntime) -> Result<(), Stuck> {
    let alloc = rt.alloc();
    let task = Fetching::begin(alloc, 0)?.go(&rt, alloc, &ASKING)?;
    let _ = task.go(&rt, alloc, &A_REFUSAL)?;
    Ok(())
}

#[test]
fn a_fault_of_the_disk(rt: HostRuntime) -> Result<(), Stuck> {
    let alloc = rt.alloc();
    let mut task = Fetching::begin(alloc, 0)?.go(&rt, alloc, &ASKING)?;
    task.disk.order(DiskOrder::FailAt { call: 1 })?;
    let _ = task.go(&rt, alloc, &A_FAULT)?;
    Ok(())
}

#[test]
fn losses(rt: HostRuntime) -> Result<(), Stuck> {
    let alloc = rt.alloc();
    let mut task = Fetching::begin(alloc, 1)?.go(&rt, alloc, &A_LOSS)?;
    assert!(rt; task.received.len() == 22);
    task.received.clear();
    let _ = task.go(&rt, alloc, &ONE_LOSS_MORE)?;
    Ok(())
}

#[test]
fn garbled_bytes(rt: HostRuntime) -> Result<(), Stuck> {
    let alloc = rt.alloc();
    let task = Fetching::begin(alloc, 0)?.go(&rt, alloc, &AN_END_OF_NOTHING)?;
    assert!(rt; task.received.is_empty());
    let task = Fetching::begin(alloc, 0)?.go(&rt, alloc, &NO_FRAME)?;
    assert!(rt; task.received.len() == 3);
    Ok(())
}
