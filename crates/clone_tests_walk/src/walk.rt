//! Random walks over both ends of a clone: the tasks of a requester and the donor's sides of their
//! connections take steps by turns, bytes come in pieces, connections are lost, the donor's disk
//! fails now and then, and its engine goes on, also with tables that are new. The clone that comes
//! of it is recovered, and has the rows of its position.

mod drawn;
mod engine;
mod plain;
mod requester;
mod wire;

use crate::walk::drawn::{below, words_from};
use crate::walk::engine::Engine;
use crate::walk::requester::Requester;
use crate::walk::wire::{Served, Wire};
use clone_chunk::CopyStage;
use clone_donor::Donor;
use clone_engine::OpenRefusal;
use clone_fetch::TaskAnswer;
use clone_memdisk::MemDisk;
use clone_model::Config;
use clone_outside::DiskOrder;
use clone_recover::{Recovered, open_rows, recover};
use clone_serve::ServeAnswer;
use clone_session::Stop;
use clone_tasks::{CloneEnd, Phase};
use rand_pcg::Pcg32;
use std::alloc::Global;
use std::process::Abort;
use std::test::Fail;

// More rounds than a clone takes.
const ROUNDS: u32 = 200_000;

// How many calls of the engine come before the clone.
const BEFORE: u32 = 600;

// The code of an acknowledgement.
const ACK: u8 = 5;

// So few frames that pages go to the disk, and room for the log.
const CONFIG: Config = Config {
    pool: 20,
    ring: 1_048_576,
};

/// A walk but for its ends.
#[derive(Drop)]
struct Walk {
    words: Pcg32,
    engine: Engine,
    wires: Vec<Wire>,
    // the donor's sides of connections that their tasks closed
    left: Vec<Served>,
    // the position that was looked up last
    floor: u64,
    // that of the first acknowledgement of the copy of pages
    first: Option<u64>,
    cuts: u32,
    limit: u32,
    end: Option<(u64, u64)>,
    counts: Counts,
    alloc: Global,
}

/// What came up.
#[derive(Clone, Copy, Drop)]
struct Counts {
    // losses that were counted, by how far the clone had come
    losses: [u64; PHASES],
    // connections that their tasks closed
    closed: u64,
    refusals: u64,
    // blocks that the first task's connection sent, and those of others
    blocks: u64,
    others: u64,
    exits: u64,
    // faults of the donor's disk that a step of its side met
    faults: u64,
    // tables that were made while the session stood
    made: u64,
}

// No stage, those in which something is copied, and that in which all was.
const PHASES: usize = 5;

impl Walk {
    // Nothing was done yet.
    fn new(alloc: Global, seed: u64, tasks: u8, limit: u32) -> Result<Walk, Fail> {
        let mut wires = Vec::new(alloc);
        for _ in 0..tasks {
            if wires.push(Wire::new(alloc)).is_err() {
                return Err(Fail::from("no memory"));
            }
        }
        Ok(Walk {
            words: words_from(seed, 31),
            engine: Engine::new(alloc),
            wires,
            left: Vec::new(alloc),
            floor: 0,
            first: None,
            cuts: 0,
            limit,
            end: None,
            counts: Counts::new(),
            alloc,
        })
    }

    // Calls of the engine.
    fn call(&mut self, donor: &mut Donor<MemDisk>, count: u32) -> Result<(), Fail> {
        for _ in 0..count {
            self.engine.call(&mut self.words, donor)?;
        }
        Ok(())
    }

    // Rounds until the clone has ended.
    fn go(
        &mut self,
        rt: &impl Abort,
        donor: &mut Donor<MemDisk>,
        copy: Requester,
    ) -> Result<Requester, Fail> {
        let mut copy = copy;
        for _ in 0..ROUNDS {
            copy = self.round(rt, donor, copy)?;
            if self.end.is_some() {
                return Ok(copy);
            }
        }
        Err(Fail::from("the clone doesn't end"))
    }

    // A step that is drawn.
    fn round(
        &mut self,
        rt: &impl Abort,
        donor: &mut Donor<MemDisk>,
        copy: Requester,
    ) -> Result<Requester, Fail> {
        let task = self.drawn_task();
        match below(&mut self.words, 33) {
            0..=9 => return self.step_task(rt, copy, task),
            10..=16 => self.serve(donor, task)?,
            17..=25 => self.shift(task)?,
            26 => self.serve_left(donor)?,
            27 => self.cut(task)?,
            28 => self.floor = donor.look(),
            29 => self.order_fault(donor)?,
            _ => self.call(donor, 1)?,
        }
        Ok(copy)
    }

    fn drawn_task(&mut self) -> u8 {
        let count = self.wires.len().min(16) as u32;
        if count == 0 {
            return 0;
        }
        below(&mut self.words, count) as u8
    }

    // A step of a task.
    fn step_task(&mut self, rt: &impl Abort, copy: Requester, task: u8) -> Result<Requester, Fail> {
        let Some(wire) = self.wires.get_mut(task as usize) else {
            return Err(Fail::from("no such task"));
        };
        let (copy, answer, ready) = copy.step(self.alloc, wire, task, self.floor)?;
        match answer {
            TaskAnswer::Sent { code } => {
                wire.connect();
                if code == ACK && ready == Some(CopyStage::PageCopy) && self.first.is_none() {
                    self.first = Some(self.floor);
                }
            }
            TaskAnswer::Lost { .. } => self.counts.note_loss(copy.reception.table().phase()),
            TaskAnswer::Stale => {
                count(&mut self.counts.closed);
                let left = wire.close(self.alloc, &mut self.words)?;
                if self.left.push(left).is_err() {
                    return Err(Fail::from("no memory"));
                }
            }
            TaskAnswer::Ended(end) => self.end = Some(complete(rt, end)?),
            TaskAnswer::Took(_) | TaskAnswer::Idle => {}
            TaskAnswer::NoMemory => return Err(Fail::from("no memory")),
        }
        Ok(copy)
    }

    // A step of the donor's side of a task's connection.
    fn serve(&mut self, donor: &mut Donor<MemDisk>, task: u8) -> Result<(), Fail> {
        let Some(wire) = self.wires.get_mut(task as usize) else {
            return Err(Fail::from("no such task"));
        };
        if wire.is_absent() {
            return Ok(());
        }
        let answer = wire.served.step(self.alloc, donor, &mut wire.given);
        if matches!(answer, ServeAnswer::DiskFault) {
            // the donor closes a connection over which its disk failed
            wire.cut(&mut self.words)?;
        }
        self.counts.note(task, answer)
    }

    // A step of the donor's side of a connection that its task closed. One with nothing to do goes.
    fn serve_left(&mut self, donor: &mut Donor<MemDisk>) -> Result<(), Fail> {
        let count = self.left.len().min(u32::MAX as usize) as u32;
        if count == 0 {
            return Ok(());
        }
        let at = below(&mut self.words, count) as usize;
        let Some(left) = self.left.get_mut(at) else {
            return Ok(());
        };
        let mut given = Vec::new(self.alloc);
        let answer = left.step(self.alloc, donor, &mut given);
        if matches!(answer, ServeAnswer::Idle) && at < self.left.len() {
            let _ = self.left.swap_remove(at);
        }
        Ok(())
    }

    // Some of the bytes come that are under way on a task's connection.
    fn shift(&mut self, task: u8) -> Result<(), Fail> {
        match self.wires.get_mut(task as usize) {
            Some(wire) => wire.shift(&mut self.words),
            None => Ok(()),
        }
    }

    // Now and then a task's connection is lost.
    fn cut(&mut self, task: u8) -> Result<(), Fail> {
        if self.cuts >= self.limit || below(&mut self.words, 8) > 0 {
            return Ok(());
        }
        let Some(wire) = self.wires.get_mut(task as usize) else {
            return Ok(());
        };
        if !wire.is_up() {
            return Ok(());
        }
        self.cuts = self.cuts.saturating_add(1);
        wire.cut(&mut self.words)
    }

    // Now and then the donor's disk is to fail at one of its next calls.
    fn order_fault(&mut self, donor: &mut Donor<MemDisk>) -> Result<(), Fail> {
        if self.cuts >= self.limit || below(&mut self.words, 8) > 0 {
            return Ok(());
        }
        let call = below(&mut self.words, 4) as u64 + 1;
        self.cuts = self.cuts.saturating_add(1);
        donor.order(DiskOrder::FailAt { call })?;
        Ok(())
    }

    // What is under way on the first task's connection comes, and the donor takes it.
    fn finish(&mut self, rt: &impl Abort, donor: &mut Donor<MemDisk>) -> Result<(), Fail> {
        let Some(wire) = self.wires.get_mut(0) else {
            return Err(Fail::from("no such task"));
        };
        if !wire.is_up() {
            assert_eq!(rt; donor.session(), Some(1));
            assert!(rt; donor.abandon(1).is_ok());
            return Ok(());
        }
        wire.shift_all()?;
        let answer = wire.served.step(self.alloc, donor, &mut wire.given);
        self.counts.note(0, answer)?;
        assert!(rt; self.counts.exits == 1);
        Ok(())
    }
}

impl Counts {
    // Nothing came yet.
    fn new() -> Counts {
        Counts {
            losses: [0; PHASES],
            closed: 0,
            refusals: 0,
            blocks: 0,
            others: 0,
            exits: 0,
            faults: 0,
            made: 0,
        }
    }

    // What a step of the donor's side of a task says.
    fn note(&mut self, task: u8, answer: ServeAnswer) -> Result<(), Fail> {
        match answer {
            ServeAnswer::SentPages { .. } | ServeAnswer::SentRedo { .. } => {
                if task == 0 {
                    count(&mut self.blocks);
                } else {
                    count(&mut self.others);
                }
            }
            ServeAnswer::Refused(_) => count(&mut self.refusals),
            ServeAnswer::Exit => count(&mut self.exits),
            ServeAnswer::DiskFault => count(&mut self.faults),
            ServeAnswer::Garbled { .. } => return Err(Fail::from("garbled at the donor")),
            ServeAnswer::NoMemory => return Err(Fail::from("no memory")),
            _ => {}
        }
        Ok(())
    }

    // A loss was counted.
    fn note_loss(&mut self, phase: Phase) {
        let at = match phase {
            Phase::Opening => 0,
            Phase::Copying { stage } => stage.number() as usize,
            Phase::Done => 4,
        };
        if let Some(number) = self.losses.get_mut(at) {
            count(number);
        }
    }
}

// One more came.
fn count(number: &mut u64) {
    *number = number.saturating_add(1);
}

// How a clone ended that is complete.
fn complete(rt: &impl Abort, end: CloneEnd) -> Result<(u64, u64), Fail> {
    match end {
        CloneEnd::Complete { lsn, position } => Ok((lsn, position)),
        CloneEnd::Refused { cause } => {
            assert_eq!(rt; (cause.number(), cause.first(), cause.second()), (0, 0, 0));
            Err(Fail::from("refused"))
        }
        CloneEnd::Spent { .. } => Err(Fail::from("too many losses")),
        CloneEnd::Garbled { .. } => Err(Fail::from("garbled at the requester")),
        CloneEnd::DiskFault => Err(Fail::from("a fault of the disk")),
    }
}

fn opened(alloc: Global) -> Result<Donor<MemDisk>, Fail> {
    match Donor::open(alloc, MemDisk::new(alloc), CONFIG) {
        Ok(donor) => Ok(donor),
        Err(refusal) => {
            let OpenRefusal { cause: _, disk: _ } = refusal;
            Err(Fail::from("not opened"))
        }
    }
}

// A clone from its beginning to its end, and what it holds.
fn take_clone(
    rt: &impl Abort,
    donor: &mut Donor<MemDisk>,
    walk: &mut Walk,
    tasks: u8,
    version: u16,
) -> Result<(), Fail> {
    donor.order(DiskOrder::Tear { byte: 0xA5 })?;
    walk.engine.make_tables(donor)?;
    walk.call(donor, BEFORE)?;
    let copy = Requester::begin(walk.alloc, tasks, walk.limit, version)?;
    let copy = walk.go(rt, donor, copy)?;
    walk.finish(rt, donor)?;
    expect(rt, donor, walk, copy)
}

// The clone ended at the stop, not below the floor, and has exactly the rows of the plain donor
// there.
fn expect(
    rt: &impl Abort,
    donor: &Donor<MemDisk>,
    walk: &Walk,
    copy: Requester,
) -> Result<(), Fail> {
    let Some((lsn, position)) = walk.end else {
        return Err(Fail::from("no end"));
    };
    let stop = Stop {
        session: 1,
        position,
        drops: 0,
    };
    assert_eq!(rt; (donor.session(), donor.stop()), (None, Some(stop)));
    let first = walk.first.ok_or("no floor")?;
    assert!(rt; first <= position);
    let Requester {
        reception: _,
        mut disk,
    } = copy;
    assert!(rt; recover(walk.alloc, &mut disk) == Ok(Recovered { lsn, position }));
    let found = open_rows(walk.alloc, &mut disk).ok().ok_or("no rows")?;
    let expected = walk.engine.plain.rows_at(position)?;
    assert!(rt; found.as_slice() == expected.as_slice());
    Ok(())
}

// A walk by this seed.
fn walked(
    rt: &impl Abort,
    alloc: Global,
    seed: u64,
    tasks: u8,
    version: u16,
    limit: u32,
) -> Result<Counts, Fail> {
    let mut walk = Walk::new(alloc, seed, tasks, limit)?;
    let mut donor = opened(alloc)?;
    let cloned = take_clone(rt, &mut donor, &mut walk, tasks, version);
    let _disk = donor.into_disk();
    cloned?;
    let mut counts = walk.counts;
    counts.made = walk.engine.made;
    Ok(counts)
}

// No connection is lost.
#[test]
fn a_walk_without_losses(rt: HostRuntime) -> Result<(), Fail> {
    let counts = walked(&rt, rt.alloc(), 1, 1, 1, 0)?;
    let losses = counts.losses;
    assert_eq!(rt; losses, [0; PHASES]);
    assert_eq!(rt; (counts.closed, counts.refusals), (0, 0));
    assert_eq!(rt; (counts.others, counts.exits), (0, 1));
    assert!(rt; counts.blocks > 0);
    Ok(())
}

// Connections of one task and of several are lost, the donor's disk fails in a block, tables are made
// meanwhile, and blocks come over all.
#[test]
fn walks_with_losses(rt: HostRuntime) -> Result<(), Fail> {
    let (mut lost, mut others, mut faults, mut made) = (0, 0, 0, 0);
    for (seed, tasks, version) in [(2, 1, 1), (3, 4, 2), (4, 3, 1), (5, 16, 2)] {
        let counts = walked(&rt, rt.alloc(), seed, tasks, version, 16)?;
        lost = counts.losses.iter().copied().max().unwrap_or(0).max(lost);
        others = counts.others.max(others);
        faults = counts.faults.max(faults);
        made = counts.made.max(made);
    }
    assert!(rt; lost > 0 && others > 0 && faults > 0 && made > 0);
    Ok(())
}
