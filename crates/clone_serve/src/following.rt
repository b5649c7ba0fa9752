//! What follows an answer. A refusal ends the connection, and so does a fault of the disk, or
//! running out of memory.
//! Within an EXECUTE a chunk is claimed, its kept blocks are asked for, and the others are read,
//! one a step. Redo that isn't archived yet is archived up to the block's end, and the block read
//! again; where the donor has changed meanwhile so that it still isn't archived, the next step asks
//! anew. So no requester ever learns of it.
ghost use Rattle.std.specs.Prelude.{◌≡◌, Some};
ghost use Rattle.clone_serve.specs.Following.{after, call_in, ended, failing, next_block};
ghost use Rattle.clone_serve.specs.Following.{refusing, says_sent, sending, told, unarchived};
ghost use Rattle.clone_serve.specs.Following.{unread, work_after, work_at};
ghost use Rattle.clone_serve.specs.Serving.{Awaits};

use crate::frames::{block_frame, end_frame, stage_frame};
use crate::{After, Doing, Execution, Place, ServeAnswer, Work};
use clone_calls::{Block, BlockRefusal, DonorAnswer, DonorCall};
use clone_chunk::CloneCause;
use clone_session::{Caller, CloneRefusal, StageInfo};
use clone_wire::Frame;

/// The call by which an EXECUTE goes on.
pub(crate) fn call_in(execution: Execution, work: Work) -> DonorCall
    ensures { result ≡ call_in execution work }
{
    let caller = execution.caller;
    let stage = execution.stage.number();
    match work {
        Work::Claim => DonorCall::Claim { caller, stage },
        Work::Weigh { chunk } => DonorCall::Kept {
            caller,
            stage,
            chunk,
        },
        Work::Read { place, .. } => DonorCall::ReadBlock {
            caller,
            stage,
            chunk: place.chunk,
            block: place.block,
        },
        Work::Archive { limit, .. } => DonorCall::Archive { limit },
    }
}

/// What follows an answer.
pub(crate) fn after(doing: Doing, answer: DonorAnswer) -> After
    requires { Awaits doing answer }
    ensures { after doing answer ≡ Some result }
{
    match doing {
        Doing::Telling { caller } => told_by(caller, answer),
        Doing::Starting { execution } => started_by(execution, answer),
        Doing::Leaving => left_by(answer),
        Doing::Serving { execution, work } => served_by(execution, work, answer),
        Doing::New | Doing::Ready { .. } | Doing::Over => unreachable!(),
    }
}

fn told_by(caller: Caller, answer: DonorAnswer) -> After
    requires { Awaits (Doing.Telling caller) answer }
    ensures { after (Doing.Telling caller) answer ≡ Some result }
{
    match answer {
        DonorAnswer::Init(stage)
        | DonorAnswer::Attach(stage)
        | DonorAnswer::Reinit(stage)
        | DonorAnswer::ReinitBlocks(stage)
        | DonorAnswer::Ack(stage) => told(caller, stage),
        _ => unreachable!(),
    }
}

fn started_by(execution: Execution, answer: DonorAnswer) -> After
    requires { Awaits (Doing.Starting execution) answer }
    ensures { after (Doing.Starting execution) answer ≡ Some result }
{
    match answer {
        DonorAnswer::Execute(Ok(())) => ended(
            Doing::Serving {
                execution,
                work: Work::Claim,
            },
            ServeAnswer::Execute,
        ),
        DonorAnswer::Execute(Err(cause)) => refusing(cause),
        _ => unreachable!(),
    }
}

fn left_by(answer: DonorAnswer) -> After
    requires { Awaits Doing.Leaving answer }
    ensures { after Doing.Leaving answer ≡ Some result }
{
    match answer {
        DonorAnswer::Exit(Ok(())) => ended(Doing::Over, ServeAnswer::Exit),
        DonorAnswer::Exit(Err(cause)) => refusing(cause),
        _ => unreachable!(),
    }
}

fn served_by(execution: Execution, work: Work, answer: DonorAnswer) -> After
    requires { Awaits (Doing.Serving execution work) answer }
    ensures { after (Doing.Serving execution work) answer ≡ Some result }
{
    match work {
        Work::Claim => claimed_by(execution, answer),
        Work::Weigh { chunk } => weighed_by(execution, chunk, answer),
        Work::Read { place, again } => read_by(execution, place, again, answer),
        Work::Archive { place, limit } => archived_by(execution, place, limit, answer),
    }
}

// A stage is sent.
fn told(caller: Caller, stage: Result<StageInfo, CloneRefusal>) -> After
    ensures { result ≡ told caller stage }
{
    match stage {
        Ok(info) => {
            let says = ServeAnswer::Answered {
                stage: info.plan.stage().number(),
                lsn: info.plan.lsn(),
                position: info.plan.position(),
            };
            sending(Doing::Ready { caller }, stage_frame(info), says)
        }
        Err(refusal) => failing(refusal),
    }
}

// A chunk is claimed, or none is free.
fn claimed_by(execution: Execution, answer: DonorAnswer) -> After
    requires { Awaits (Doing.Serving execution Work.Claim) answer }
    ensures { after (Doing.Serving execution Work.Claim) answer ≡ Some result }
{
    match answer {
        DonorAnswer::Claim(Ok(Some(chunk))) => After::Asks {
            execution,
            work: Work::Weigh { chunk },
        },
        DonorAnswer::Claim(Ok(None)) => sending(
            Doing::Ready {
                caller: execution.caller,
            },
            end_frame(execution),
            ServeAnswer::SentEnd,
        ),
        DonorAnswer::Claim(Err(cause)) => refusing(cause),
        _ => unreachable!(),
    }
}

// The first block is read that the requester doesn't have.
fn weighed_by(execution: Execution, chunk: u32, answer: DonorAnswer) -> After
    requires { Awaits (Doing.Serving execution (Work.Weigh chunk)) answer }
    ensures { after (Doing.Serving execution (Work.Weigh chunk)) answer ≡ Some result }
{
    match answer {
        DonorAnswer::Kept(Ok(kept)) => After::Asks {
            execution,
            work: work_at(chunk, kept, 0),
        },
        DonorAnswer::Kept(Err(cause)) => refusing(cause),
        _ => unreachable!(),
    }
}

// A block is sent, or why it isn't read.
fn read_by(execution: Execution, place: Place, again: bool, answer: DonorAnswer) -> After
    requires { Awaits (Doing.Serving execution (Work.Read place again)) answer }
    ensures { after (Doing.Serving execution (Work.Read place again)) answer ≡ Some result }
{
    match answer {
        DonorAnswer::ReadBlock(Ok((block, last))) => {
            let says = says_sent(place, &block);
            let frame = block_frame(execution, place, block);
            let work = work_after(place, last);
            sending(Doing::Serving { execution, work }, frame, says)
        }
        DonorAnswer::ReadBlock(Err(refusal)) => unread(execution, place, again, refusal),
        _ => unreachable!(),
    }
}

// The redo is archived, and its block is read again.
fn archived_by(execution: Execution, place: Place, limit: u64, answer: DonorAnswer) -> After
    requires { Awaits (Doing.Serving execution (Work.Archive place limit)) answer }
    ensures { after (Doing.Serving execution (Work.Archive place limit)) answer ≡ Some result }
{
    match answer {
        DonorAnswer::Archive(Ok(_)) => After::Asks {
            execution,
            work: Work::Read { place, again: true },
        },
        DonorAnswer::Archive(Err(_)) => ended(Doing::Over, ServeAnswer::NoMemory),
        _ => unreachable!(),
    }
}

// A block isn't read.
fn unread(execution: Execution, place: Place, again: bool, refusal: BlockRefusal) -> After
    ensures { result ≡ unread execution place again refusal }
{
    match refusal {
        BlockRefusal::Clone(CloneRefusal::Because(CloneCause::ArchiveBehind { archived, until })) =>
            unarchived(execution, place, again, until.saturating_sub(archived)),
        BlockRefusal::Clone(refusal) => failing(refusal),
        BlockRefusal::Engine(_) => ended(Doing::Over, ServeAnswer::DiskFault),
    }
}

// So much redo isn't archived yet up to the block's end. It is archived once in a step.
fn unarchived(execution: Execution, place: Place, again: bool, limit: u64) -> After
    ensures { result ≡ unarchived execution place again limit }
{
    if again {
        let work = Work::Read {
            place,
            again: false,
        };
        ended(Doing::Serving { execution, work }, ServeAnswer::Idle)
    } else {
        After::Asks {
            execution,
            work: Work::Archive { place, limit },
        }
    }
}

// What comes after a block: the next one of its chunk, or another chunk.
fn work_after(place: Place, last: bool) -> Work
    ensures { result ≡ work_after place last }
{
    if last {
        Work::Claim
    } else {
        work_at(place.chunk, place.kept, place.block.saturating_add(1))
    }
}

// The first block from this one on that the requester doesn't have is read.
fn work_at(chunk: u32, kept: u8, from: u8) -> Work
    ensures { result ≡ work_at chunk kept from }
{
    Work::Read {
        place: Place {
            chunk,
            kept,
            block: next_block(kept, from),
        },
        again: false,
    }
}

// The first block from this one on whose bit isn't set. A chunk has eight blocks at most.
#[tactic(auto, unfolding(crate::specs::Following::next_block))]
fn next_block(kept: u8, from: u8) -> u8
    ensures { result ≡ next_block kept from }
{
    if from < 8 {
        from + (kept >> from).trailing_ones() as u8
    } else {
        from
    }
}

// What is said of a block that is sent.
fn says_sent(place: Place, block: &Block) -> ServeAnswer
    ensures { result ≡ says_sent place.chunk place.block block.now }
{
    match block {
        Block::Pages(_) => ServeAnswer::SentPages {
            chunk: place.chunk,
            block: place.block,
        },
        Block::Redo { .. } => ServeAnswer::SentRedo {
            chunk: place.chunk,
            block: place.block,
        },
    }
}

fn ended(doing: Doing, says: ServeAnswer) -> After
    ensures { result ≡ ended doing says }
{
    After::Ends {
        doing,
        sends: None,
        says,
    }
}

fn sending(doing: Doing, frame: Frame, says: ServeAnswer) -> After
    ensures { result ≡ sending doing frame says }
{
    After::Ends {
        doing,
        sends: Some(frame),
        says,
    }
}

fn refusing(cause: CloneCause) -> After
    ensures { result ≡ refusing cause }
{
    sending(
        Doing::Over,
        Frame::Refused { cause },
        ServeAnswer::Refused(cause),
    )
}

fn failing(refusal: CloneRefusal) -> After
    ensures { result ≡ failing refusal }
{
    match refusal {
        CloneRefusal::Because(cause) => refusing(cause),
        CloneRefusal::NoMemory => ended(Doing::Over, ServeAnswer::NoMemory),
    }
}
