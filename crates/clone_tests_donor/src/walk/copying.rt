//! The blocks of a clone that a walk takes, with steps of the walk between any two of them.

use crate::walk::TORN;
use crate::walk::beside::Walk;
use crate::walk::counts::count;
use crate::walk::requester::Requester;
use clone_calls::{Block, BlockRefusal};
use clone_chunk::CloneCause;
use clone_donor::Donor;
use clone_memdisk::MemDisk;
use clone_plain::{Cause, EngineRefusal};
use clone_session::{Caller, CloneRefusal};
use std::process::Abort;
use std::test::Fail;

// More chunks than a stage has here, more blocks than a chunk has, with those that are read again,
// and more tries than it takes until a block comes.
const CHUNKS: u32 = 1_000;

const BLOCKS: u32 = 1_000;

const TRIES: u32 = 1_000;

/// A stage that is copied.
#[derive(Clone, Copy)]
pub struct StageCopy {
    /// Who asks for its blocks.
    pub caller: Caller,
    /// Its number.
    pub stage: u8,
    /// Where the redo begins.
    pub checkpoint: u64,
}

/// Copies each chunk of a stage.
pub fn copy_stage(
    rt: &impl Abort,
    donor: &mut Donor<MemDisk>,
    walk: &mut Walk,
    copy: StageCopy,
    requester: Requester,
) -> Result<Requester, Fail> {
    let mut requester = requester;
    for _ in 0..CHUNKS {
        let claimed = donor.claim(copy.caller, copy.stage);
        let Some(chunk) = claimed.ok().ok_or("no claim")? else {
            return Ok(requester);
        };
        requester = copy_chunk(rt, donor, walk, copy, chunk, requester)?;
    }
    Err(Fail::from("too many chunks"))
}

// Copies each block of a chunk, and some of them again: any answer of a block will do.
fn copy_chunk(
    rt: &impl Abort,
    donor: &mut Donor<MemDisk>,
    walk: &mut Walk,
    copy: StageCopy,
    chunk: u32,
    requester: Requester,
) -> Result<Requester, Fail> {
    let mut requester = requester;
    let mut number: u8 = 0;
    for _ in 0..BLOCKS {
        let (block, last) = read(rt, donor, walk, copy, (chunk, number))?;
        requester = requester.lay(copy.checkpoint, &block)?;
        if last {
            return Ok(requester);
        }
        if walk.draw(8) > 0 {
            number = number.saturating_add(1);
        }
    }
    Err(Fail::from("no last block"))
}

// Asks for a block, by its chunk and its number there, until it comes. Whether it is its chunk's
// last is answered, too.
fn read(
    rt: &impl Abort,
    donor: &mut Donor<MemDisk>,
    walk: &mut Walk,
    copy: StageCopy,
    at: (u32, u8),
) -> Result<(Block, bool), Fail> {
    let steps = walk.draw(12);
    walk.go(rt, donor, steps)?;
    walk.count_block();
    for _ in 0..TRIES {
        match donor.read_block(walk.alloc, copy.caller, copy.stage, at.0, at.1) {
            Ok((block, last)) => {
                count_torn(walk, &block);
                return Ok((block, last));
            }
            Err(refusal) => prepare(rt, donor, walk, refusal)?,
        }
    }
    Err(Fail::from("no block"))
}

// A block was refused: its redo is archived first, and where the disk failed it is read again.
fn prepare(
    rt: &impl Abort,
    donor: &mut Donor<MemDisk>,
    walk: &mut Walk,
    refusal: BlockRefusal,
) -> Result<(), Fail> {
    match refusal {
        BlockRefusal::Clone(CloneRefusal::Because(CloneCause::ArchiveBehind { .. })) => {
            count(&mut walk.counts.behind);
            walk.archive_some(donor)?;
            walk.step(rt, donor)
        }
        BlockRefusal::Engine(EngineRefusal::Because(Cause::DiskFault)) => {
            count(&mut walk.counts.unread);
            Ok(())
        }
        _ => Err(Fail::from("another refusal of a block")),
    }
}

// Counts the pages of a block that were read while half written.
fn count_torn(walk: &mut Walk, block: &Block) {
    let Block::Pages(pages) = block else {
        return;
    };
    for page in pages.as_slice() {
        let bytes = page.page.bytes();
        if bytes[0] == TORN && bytes[4_095] == TORN {
            count(&mut walk.counts.torn);
        }
    }
}
