use clone_chunk::{CloneCause, CopyStage, PartialChunk, Stage};
use clone_marks::Marks;
use clone_tasks::*;
use clone_wire::Frame;
use std::alloc::{AllocError, Global};

/// What a task does or meets, and what comes of it.
#[derive(Clone, Copy)]
enum Step {
    /// It sends with a floor: the code of the frame, or 0 where it sends none.
    Sends(u8, u64, u8),
    /// It takes the STAGE of a stage.
    Stage(u8, Stage),
    /// It takes all blocks of these chunks.
    Chunks(u8, u32, u32),
    /// It takes END.
    End(u8),
    /// It loses the connection of this incarnation.
    Loses(u32, LossAnswer),
}

use Step::{Chunks, End, Loses, Sends};

const INIT: u8 = 1;

const ATTACH: u8 = 2;

const REINIT: u8 = 3;

const EXECUTE: u8 = 4;

const ACK: u8 = 5;

const EXIT: u8 = 6;

const REINIT2: u8 = 7;

// Two tasks ask for blocks of one stage.
const TWO_TASKS: [Step; 10] = [
    Sends(1, 0, 0),
    Sends(0, 0, INIT),
    Sends(0, 0, 0),
    Step::Stage(0, Stage::FileCopy),
    Sends(1, 0, ATTACH),
    Step::Stage(1, Stage::FileCopy),
    Sends(1, 0, EXECUTE),
    Sends(0, 0, EXECUTE),
    Sends(1, 0, 0),
    Sends(2, 0, 0),
];

// No stage is acknowledged while another task awaits an END.
const AN_END_IS_AWAITED: [Step; 12] = [
    Sends(0, 0, INIT),
    Step::Stage(0, Stage::FileCopy),
    Sends(1, 0, ATTACH),
    Step::Stage(1, Stage::FileCopy),
    Sends(1, 0, EXECUTE),
    Sends(0, 0, EXECUTE),
    Chunks(0, 0, 6),
    End(0),
    Sends(0, 0, 0),
    End(1),
    Sends(1, 0, 0),
    Sends(0, 0, ACK),
];

// A chunk that was taken in part is asked for again after a loss.
const CUT_IN_A_CHUNK: [Step; 9] = [
    Sends(0, 0, INIT),
    Step::Stage(0, Stage::FileCopy),
    Sends(0, 0, EXECUTE),
    Chunks(0, 0, 1),
    Loses(1, LossAnswer::Again { losses: 1 }),
    Loses(1, LossAnswer::Old),
    Sends(0, 0, REINIT),
    Step::Stage(0, Stage::FileCopy),
    Sends(0, 0, EXECUTE),
];

// Without a STAGE the session is opened again.
const CUT_BEFORE_A_STAGE: [Step; 4] = [
    Sends(0, 0, INIT),
    Loses(1, LossAnswer::Again { losses: 1 }),
    Sends(1, 0, 0),
    Sends(0, 0, INIT),
];

// Plays the steps, each of which has to come out as it says. The floors of acknowledgements of PAGE
// COPY are answered.
fn plays(alloc: Global, table: &mut TaskTable, steps: &[Step]) -> Result<bool, AllocError> {
    let mut right = true;
    for step in steps {
        right = right && plays_one(alloc, table, *step)?;
    }
    Ok(right)
}

fn plays_one(alloc: Global, table: &mut TaskTable, step: Step) -> Result<bool, AllocError> {
    Ok(match step {
        Sends(task, floor, code) => match table.next_send(alloc, task, floor)? {
            Some(frame) => frame.code() == code,
            None => code == 0,
        },
        Step::Stage(task, stage) => takes_stage(alloc, table, task, stage)?,
        Chunks(task, from, to) => takes_chunks(table, task, from, to),
        End(task) => takes_end(table, task),
        Loses(incarnation, answer) => loses(table, incarnation) == answer,
    })
}

// A loss after the clone's end isn't counted.
fn loses(table: &mut TaskTable, incarnation: u32) -> LossAnswer {
    if table.is_running() {
        table.lost(incarnation)
    } else {
        LossAnswer::Old
    }
}

fn table_of(alloc: Global, tasks: u8, limit: u32, version: u16) -> TaskTable {
    let tasks = tasks.max(1).min(16);
    TaskTable::new(alloc, 1, tasks, limit.min(100), version.max(1).min(2))
}

fn takes_stage(
    alloc: Global,
    table: &mut TaskTable,
    task: u8,
    stage: Stage,
) -> Result<bool, AllocError> {
    if !table.awaits_stage(task, stage) {
        return Ok(false);
    }
    if !table.moves(task) {
        table.join(task);
        return Ok(true);
    }
    match stage {
        Stage::FileCopy => table.begin_stage(CopyStage::FileCopy, Marks::of_pages(alloc, 384)?),
        Stage::PageCopy => table.begin_stage(CopyStage::PageCopy, Marks::of_pages(alloc, 0)?),
        Stage::RedoCopy => table.begin_stage(CopyStage::RedoCopy, Marks::of_pages(alloc, 1)?),
        Stage::Done => table.finish_copy(),
    }
    Ok(true)
}

fn takes_chunks(table: &mut TaskTable, task: u8, from: u32, to: u32) -> bool {
    let mut right = true;
    for chunk in from..to {
        for block in 0..8u8 {
            let Phase::Copying { stage } = table.phase() else {
                return false;
            };
            right = right && table.awaits_block(task, stage, chunk, block);
            if table.marks().is_left(chunk, block) {
                table.take_block(chunk, block);
            }
        }
    }
    right
}

fn takes_end(table: &mut TaskTable, task: u8) -> bool {
    let Phase::Copying { stage } = table.phase() else {
        return false;
    };
    let right = table.awaits_end(task, stage);
    table.take_end(task);
    right
}

#[test]
fn steps_by_the_rules(rt: HostRuntime) -> Result<(), AllocError> {
    let alloc = rt.alloc();
    let rows = [
        (2, &TWO_TASKS[..]),
        (2, &AN_END_IS_AWAITED),
        (1, &CUT_IN_A_CHUNK),
        (2, &CUT_BEFORE_A_STAGE),
    ];
    for (tasks, steps) in rows {
        let mut table = table_of(alloc, tasks, 16, 1);
        assert!(rt; plays(alloc, &mut table, steps)?);
    }
    Ok(())
}

// Whether a reattachment names chunk 0 as finished and, in version 2, block 2 of chunk 3.
fn has_taken(frame: &Frame) -> bool {
    match frame {
        Frame::Reinit { finished, .. } => finished.bytes() == [1].as_slice(),
        Frame::Reinit2 { taken, .. } => {
            let partials = [PartialChunk { chunk: 3, mask: 4 }];
            taken.finished().bytes() == [1].as_slice()
                && taken.partials().as_slice() == partials.as_slice()
        }
        _ => false,
    }
}

// In version 1 the finished chunks are sent, in version 2 also the blocks of others.
#[test]
fn what_a_reattachment_sends(rt: HostRuntime) -> Result<(), AllocError> {
    let alloc = rt.alloc();
    for (version, code) in [(1, REINIT), (2, REINIT2)] {
        let mut table = table_of(alloc, 1, 16, version);
        assert!(rt; plays(alloc, &mut table, &CUT_IN_A_CHUNK[..4])?);
        if table.marks().is_left(3, 2) {
            table.take_block(3, 2);
        }
        assert!(rt; loses(&mut table, 1) == LossAnswer::Again { losses: 1 });
        assert!(rt; table.incarnation() == 2 && table.marks().is_taken(3, 2) == (version == 2));
        match &table.next_send(alloc, 0, 0)? {
            Some(frame) => assert!(rt; frame.code() == code && has_taken(frame)),
            None => assert!(rt; false),
        }
    }
    Ok(())
}

// A repeated acknowledgement of PAGE COPY carries the floor of the first, and others their own.
#[test]
fn the_floor_of_the_first_acknowledgement(rt: HostRuntime) -> Result<(), AllocError> {
    let alloc = rt.alloc();
    let mut table = TaskTable::new(alloc, 1, 1, 16, 1);
    let front = [
        Sends(0, 0, INIT),
        Step::Stage(0, Stage::FileCopy),
        Sends(0, 0, EXECUTE),
        Chunks(0, 0, 6),
        End(0),
        Sends(0, 7, ACK),
        Step::Stage(0, Stage::PageCopy),
    ];
    assert!(rt; plays(alloc, &mut table, &front)? && table.floor().is_none());
    assert!(rt; acknowledges(alloc, &mut table, 1, 1)?);
    let back = [
        Loses(1, LossAnswer::Again { losses: 1 }),
        Sends(0, 2, REINIT),
        Step::Stage(0, Stage::RedoCopy),
    ];
    assert!(rt; plays(alloc, &mut table, &back)?);
    assert!(rt; acknowledges(alloc, &mut table, 2, 1)? && table.floor() == Some(1));
    Ok(())
}

fn acknowledges(
    alloc: Global,
    table: &mut TaskTable,
    floor: u64,
    sent: u64,
) -> Result<bool, AllocError> {
    Ok(match table.next_send(alloc, 0, floor)? {
        Some(Frame::Ack { floor, .. }) => floor == sent,
        _ => false,
    })
}

#[test]
fn losses_up_to_the_limit(rt: HostRuntime) -> Result<(), AllocError> {
    let alloc = rt.alloc();
    for limit in [0, 1, 3] {
        let mut table = table_of(alloc, 2, limit, 2);
        for losses in 1..=limit {
            assert!(rt; loses(&mut table, losses) == LossAnswer::Again { losses });
        }
        let losses = limit.saturating_add(1);
        assert!(rt; loses(&mut table, losses) == LossAnswer::Spent { losses });
        assert!(rt; loses(&mut table, losses) == LossAnswer::Old);
        assert!(rt; matches!(table.ended(), Some(CloneEnd::Spent { .. })));
        assert!(rt; table.next_send(alloc, 0, 0)?.is_none());
    }
    Ok(())
}

#[test]
fn after_all_stages_the_first_task_leaves(rt: HostRuntime) -> Result<(), AllocError> {
    let alloc = rt.alloc();
    let mut table = TaskTable::new(alloc, 1, 2, 16, 1);
    table.begin_stage(CopyStage::RedoCopy, Marks::of_pages(alloc, 0)?);
    assert!(rt;
        plays(
            alloc,
            &mut table,
            &[Sends(0, 0, ACK), Step::Stage(0, Stage::Done)]
        )?
    );
    assert!(rt; table.rule(Some(1), 0, Link::Up) == Rule::Complete);
    assert!(rt; table.rule(Some(1), 1, Link::Absent) == Rule::Nothing);
    assert!(rt; plays(alloc, &mut table, &[Sends(1, 0, 0), Sends(0, 0, EXIT)])?);
    table.end(CloneEnd::Refused {
        cause: CloneCause::NoSuchSession,
    });
    assert!(rt; plays(alloc, &mut table, &[Sends(0, 0, 0)])?);
    Ok(())
}

// A connection of an earlier incarnation is looked at by no other rule.
#[test]
fn stale_connections(rt: HostRuntime) -> Result<(), AllocError> {
    let alloc = rt.alloc();
    let mut table = TaskTable::new(alloc, 1, 1, 16, 1);
    assert!(rt; plays(alloc, &mut table, &CUT_BEFORE_A_STAGE[..2])?);
    for (made, link, rule) in [
        (Some(1), Link::Up, Rule::Stale),
        (Some(1), Link::Lost, Rule::Stale),
        (Some(1), Link::Absent, Rule::Connect),
        (None, Link::Absent, Rule::Connect),
        (Some(2), Link::Up, Rule::Nothing),
    ] {
        assert!(rt; table.rule(made, 0, link) == rule);
    }
    Ok(())
}
