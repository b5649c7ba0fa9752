//! The spelling of a frame: code in 1 byte, length of the payload in 4, then the payload's fields
//! in the order that `specs/Spelling.antt` gives, with nothing between them. Numbers have
//! their highest byte first, and a list comes after its length. A payload that names an attempt
//! begins with it, 12 bytes, but for INIT, where it is the last field.
ghost use Rattle.std.specs.Prelude.{◌≡◌, ◌≤◌, ◌+◌, ◌*◌, ◌++◌, length, vec_len, OnOk};
ghost use Rattle.std.specs.List.{flat_map};
ghost use Rattle.byteorder.specs.Endian.{big_bytes};
ghost use Rattle.clone_base.specs.declared.limits.TheConstants.{SPACE_LIMIT};
ghost use Rattle.clone_base.specs.declared.limits.TheConstants.{BLOCK_PAGES, BLOCK_BYTES};
ghost use Rattle.clone_wire.specs.declared.limits.TheConstants.{MOST_BITMAP, MOST_TAKEN};
ghost use Rattle.clone_wire.specs.declared.limits.TheConstants.{REINIT_FIELDS, REINIT2_FIELDS};
ghost use Rattle.clone_wire.specs.declared.limits.TheConstants.{STAGE_FIELDS, PARTIAL_BYTES};
ghost use Rattle.clone_wire.specs.declared.limits.TheConstants.{PAGES_FIELDS, REDO_FIELDS};
ghost use Rattle.clone_wire.specs.declared.limits.TheConstants.{SPACE_BYTES, PAGE_AT_BYTES};
ghost use Rattle.clone_wire.specs.Spelling.{attempt_bytes, space_bytes, page_bytes, plan_bytes};
ghost use Rattle.clone_wire.specs.Spelling.{partial_bytes, taken_bytes, flag, payload};
ghost use Rattle.clone_chunk.specs.Plans.{stage_of, chunks_of, checkpoint_of, lsn_of};
ghost use Rattle.clone_chunk.specs.Plans.{position_of, spaces_of};
ghost use Rattle.clone_chunk.specs.Stages.{stage_number, copy_number};
ghost use Rattle.clone_wire.specs.Stages.{page_number};
ghost use Rattle.clone_bytes.specs.Fields.{IsBytes};
ghost use Rattle.clone_chunk.specs.Bitmaps.{IsBitmap};
ghost use Rattle.clone_chunk.specs.Partials.{ArePartials};
ghost use Rattle.clone_chunk.specs.declared.partials.TheConstants.{MOST_PARTIAL};
ghost use Rattle.clone_chunk.specs.Causes.{cause_number, cause_first, cause_second};
ghost use Rattle.clone_wire.specs.Ranges.{HasWidth, AllAre, IsAttempt, IsSpace};
ghost use Rattle.clone_wire.specs.Ranges.{IsPlan, IsPageAt, IsChunkNumber, IsTakenBlocks, IsFrame};

use crate::{Attempt, Frame, PageStage};
use byteorder::{BigEndian, ByteOrder};
use clone_chunk::{
    Bitmap, CloneCause, CopyStage, PartialChunk, Partials, RedoBytes, SpaceSize, StagePlan,
    TakenBlocks,
};
use clone_page::{PageAt, Pages};
use std::alloc::AllocError;

// Each function appends fields to a text. Where memory runs out it may have appended some of them.
// The clause `kept` tells what the types of the fields keep.

fn push_u8(text: &mut Vec<u8>, n: u8) -> Result<(), AllocError>
    ensures text { OnOk result (text.new.items ≡ text.old.items ++ big_bytes 1 n) }
    ensures long { OnOk result (vec_len text.new ≤ vec_len text.old + 1) }
    ensures kept { HasWidth 1 n }
{
    text.extend_from_slice(&[n])
}

fn push_u16(text: &mut Vec<u8>, n: u16) -> Result<(), AllocError>
    ensures text { OnOk result (text.new.items ≡ text.old.items ++ big_bytes 2 n) }
    ensures long { OnOk result (vec_len text.new ≤ vec_len text.old + 2) }
    ensures kept { HasWidth 2 n }
{
    let mut bytes = [0; 2];
    BigEndian::write_u16(&mut bytes, n);
    text.extend_from_slice(&bytes)
}

fn push_u32(text: &mut Vec<u8>, n: u32) -> Result<(), AllocError>
    ensures text { OnOk result (text.new.items ≡ text.old.items ++ big_bytes 4 n) }
    ensures long { OnOk result (vec_len text.new ≤ vec_len text.old + 4) }
    ensures kept { HasWidth 4 n }
{
    let mut bytes = [0; 4];
    BigEndian::write_u32(&mut bytes, n);
    text.extend_from_slice(&bytes)
}

fn push_u64(text: &mut Vec<u8>, n: u64) -> Result<(), AllocError>
    ensures text { OnOk result (text.new.items ≡ text.old.items ++ big_bytes 8 n) }
    ensures long { OnOk result (vec_len text.new ≤ vec_len text.old + 8) }
    ensures kept { HasWidth 8 n }
{
    let mut bytes = [0; 8];
    BigEndian::write_u64(&mut bytes, n);
    text.extend_from_slice(&bytes)
}

fn push_bytes(text: &mut Vec<u8>, bytes: &[u8]) -> Result<(), AllocError>
    ensures text { OnOk result (text.new.items ≡ text.old.items ++ bytes.now) }
    ensures long { OnOk result (vec_len text.new ≤ vec_len text.old + length bytes.now) }
    ensures kept { IsBytes bytes.now }
{
    text.extend_from_slice(bytes)
}

fn push_attempt(text: &mut Vec<u8>, attempt: Attempt) -> Result<(), AllocError>
    ensures text { OnOk result (text.new.items ≡ text.old.items ++ big_bytes 8 attempt.session
        ++ big_bytes 4 attempt.incarnation) }
    ensures long { OnOk result (vec_len text.new ≤ vec_len text.old + 12) }
    ensures kept { OnOk result (IsAttempt attempt) }
{
    push_u64(text, attempt.session)?;
    push_u32(text, attempt.incarnation)
}

fn push_space(text: &mut Vec<u8>, space: &SpaceSize) -> Result<(), AllocError>
    ensures text { OnOk result (text.new.items ≡ text.old.items ++ big_bytes 4 space.now.space
        ++ big_bytes 4 space.now.pages) }
    ensures long { OnOk result (vec_len text.new ≤ vec_len text.old + 8) }
    ensures kept { OnOk result (IsSpace space.now) }
{
    push_u32(text, space.space)?;
    push_u32(text, space.pages)
}

fn push_page(text: &mut Vec<u8>, page: &PageAt) -> Result<(), AllocError>
    ensures text { OnOk result (text.new.items ≡ text.old.items ++ big_bytes 4 page.now.space
        ++ big_bytes 4 page.now.number ++ page.now.page) }
    ensures long { OnOk result (vec_len text.new ≤ vec_len text.old + PAGE_AT_BYTES) }
    ensures kept { OnOk result (IsPageAt page.now) }
{
    push_u32(text, page.space)?;
    push_u32(text, page.number)?;
    push_bytes(text, page.page.bytes())
}

fn push_init(
    text: &mut Vec<u8>,
    attempt: Attempt,
    version: u16,
    page_size: u32,
    compressed: bool,
    tasks: u8,
) -> Result<(), AllocError>
    ensures text { OnOk result (text.new.items ≡ text.old.items ++ big_bytes 2 version
        ++ big_bytes 4 page_size ++ big_bytes 1 (flag compressed) ++ big_bytes 1 tasks
        ++ big_bytes 8 attempt.session ++ big_bytes 4 attempt.incarnation) }
    ensures long { OnOk result (vec_len text.new ≤ vec_len text.old + 20) }
    ensures kept { OnOk result (IsAttempt attempt × HasWidth 2 version × HasWidth 4 page_size
        × HasWidth 1 tasks) }
{
    push_u16(text, version)?;
    push_u32(text, page_size)?;
    push_u8(text, if compressed { 1 } else { 0 })?;
    push_u8(text, tasks)?;
    push_attempt(text, attempt)
}

fn push_attach(text: &mut Vec<u8>, attempt: Attempt, task: u8) -> Result<(), AllocError>
    ensures text { OnOk result (text.new.items ≡ text.old.items ++ big_bytes 8 attempt.session
        ++ big_bytes 4 attempt.incarnation ++ big_bytes 1 task) }
    ensures long { OnOk result (vec_len text.new ≤ vec_len text.old + 13) }
    ensures kept { OnOk result (IsAttempt attempt × HasWidth 1 task) }
{
    push_attempt(text, attempt)?;
    push_u8(text, task)
}

fn push_ack(text: &mut Vec<u8>, stage: CopyStage, floor: u64) -> Result<(), AllocError>
    ensures text { OnOk result (text.new.items ≡ text.old.items
        ++ big_bytes 1 (copy_number stage) ++ big_bytes 8 floor) }
    ensures long { OnOk result (vec_len text.new ≤ vec_len text.old + 9) }
    ensures kept { OnOk result (HasWidth 8 floor) }
{
    push_u8(text, stage.number())?;
    push_u64(text, floor)
}

fn push_reinit(
    text: &mut Vec<u8>,
    attempt: Attempt,
    stage: CopyStage,
    finished: &Bitmap,
) -> Result<(), AllocError>
    ensures text { OnOk result (text.new.items ≡ text.old.items ++ big_bytes 8 attempt.session
        ++ big_bytes 4 attempt.incarnation ++ big_bytes 1 (copy_number stage)
        ++ big_bytes 4 finished.now.count ++ finished.now.bytes) }
    ensures long { OnOk result
        (vec_len text.new ≤ vec_len text.old + (REINIT_FIELDS + MOST_BITMAP)) }
    ensures kept { OnOk result (IsAttempt attempt × IsBitmap finished.now.count finished.now.bytes
        × IsBytes finished.now.bytes) }
{
    push_attempt(text, attempt)?;
    push_u8(text, stage.number())?;
    push_u32(text, finished.count())?;
    push_bytes(text, finished.bytes())
}

fn push_partial(text: &mut Vec<u8>, partial: &PartialChunk) -> Result<(), AllocError>
    ensures text { OnOk result (text.new.items ≡ text.old.items
        ++ big_bytes 4 partial.now.chunk ++ big_bytes 1 partial.now.mask) }
    ensures long { OnOk result (vec_len text.new ≤ vec_len text.old + 5) }
    ensures kept { OnOk result (IsChunkNumber partial.now) }
{
    push_u32(text, partial.chunk)?;
    push_u8(text, partial.mask)
}

fn push_partials(text: &mut Vec<u8>, partials: &[PartialChunk]) -> Result<(), AllocError>
    ensures text { OnOk result (text.new.items ≡ text.old.items
        ++ flat_map partial_bytes partials.now) }
    ensures long { OnOk result
        (vec_len text.new ≤ vec_len text.old + PARTIAL_BYTES * length partials.now) }
    ensures kept { OnOk result (AllAre IsChunkNumber partials.now) }
{
    for partial in partials {
        push_partial(text, partial)?;
    }
    Ok(())
}

fn push_listed(text: &mut Vec<u8>, partials: &Partials) -> Result<(), AllocError>
    ensures text { OnOk result (text.new.items ≡ text.old.items
        ++ big_bytes 4 (length partials.now) ++ flat_map partial_bytes partials.now) }
    ensures long { OnOk result
        (vec_len text.new ≤ vec_len text.old + (4 + PARTIAL_BYTES * MOST_PARTIAL)) }
    ensures kept { OnOk result (ArePartials partials.now × AllAre IsChunkNumber partials.now) }
{
    push_u32(text, partials.as_slice().len() as u32)?;
    push_partials(text, partials.as_slice())
}

fn push_reinit2(
    text: &mut Vec<u8>,
    attempt: Attempt,
    stage: CopyStage,
    taken: &TakenBlocks,
) -> Result<(), AllocError>
    ensures text { OnOk result (text.new.items ≡ text.old.items ++ big_bytes 8 attempt.session
        ++ big_bytes 4 attempt.incarnation ++ big_bytes 1 (copy_number stage)
        ++ taken_bytes taken.now) }
    ensures long { OnOk result
        (vec_len text.new ≤ vec_len text.old + (REINIT2_FIELDS + MOST_TAKEN)) }
    ensures kept { OnOk result (IsAttempt attempt × IsTakenBlocks taken.now) }
{
    push_reinit(text, attempt, stage, taken.finished())?;
    push_listed(text, taken.partials())
}

fn push_staged(text: &mut Vec<u8>, attempt: Attempt, stage: CopyStage) -> Result<(), AllocError>
    ensures text { OnOk result (text.new.items ≡ text.old.items ++ big_bytes 8 attempt.session
        ++ big_bytes 4 attempt.incarnation ++ big_bytes 1 (copy_number stage)) }
    ensures long { OnOk result (vec_len text.new ≤ vec_len text.old + 13) }
    ensures kept { OnOk result (IsAttempt attempt) }
{
    push_attempt(text, attempt)?;
    push_u8(text, stage.number())
}

fn push_block(
    text: &mut Vec<u8>,
    attempt: Attempt,
    stage: u8,
    chunk: u32,
    block: u8,
) -> Result<(), AllocError>
    ensures text { OnOk result (text.new.items ≡ text.old.items ++ big_bytes 8 attempt.session
        ++ big_bytes 4 attempt.incarnation ++ big_bytes 1 stage ++ big_bytes 4 chunk
        ++ big_bytes 1 block) }
    ensures long { OnOk result (vec_len text.new ≤ vec_len text.old + 18) }
    ensures kept { OnOk result (IsAttempt attempt × HasWidth 4 chunk × HasWidth 1 block) }
{
    push_attempt(text, attempt)?;
    push_u8(text, stage)?;
    push_u32(text, chunk)?;
    push_u8(text, block)
}

fn push_cause(text: &mut Vec<u8>, cause: CloneCause) -> Result<(), AllocError>
    ensures text { OnOk result (text.new.items ≡ text.old.items
        ++ big_bytes 1 (cause_number cause) ++ big_bytes 8 (cause_first cause)
        ++ big_bytes 8 (cause_second cause)) }
    ensures long { OnOk result (vec_len text.new ≤ vec_len text.old + 17) }
    ensures kept { OnOk result (HasWidth 8 (cause_first cause) × HasWidth 8 (cause_second cause)) }
{
    push_u8(text, cause.number())?;
    push_u64(text, cause.first())?;
    push_u64(text, cause.second())
}

fn push_spaces(text: &mut Vec<u8>, spaces: &[SpaceSize]) -> Result<(), AllocError>
    ensures text { OnOk result (text.new.items ≡ text.old.items
        ++ flat_map space_bytes spaces.now) }
    ensures long { OnOk result
        (vec_len text.new ≤ vec_len text.old + SPACE_BYTES * length spaces.now) }
    ensures kept { OnOk result (AllAre IsSpace spaces.now) }
{
    for space in spaces {
        push_space(text, space)?;
    }
    Ok(())
}

fn push_pages(text: &mut Vec<u8>, pages: &[PageAt]) -> Result<(), AllocError>
    ensures text { OnOk result (text.new.items ≡ text.old.items ++ flat_map page_bytes pages.now) }
    ensures long { OnOk result
        (vec_len text.new ≤ vec_len text.old + PAGE_AT_BYTES * length pages.now) }
    ensures kept { OnOk result (AllAre IsPageAt pages.now) }
{
    for page in pages {
        push_page(text, page)?;
    }
    Ok(())
}

fn push_counted_pages(text: &mut Vec<u8>, pages: &Pages) -> Result<(), AllocError>
    ensures text { OnOk result (text.new.items ≡ text.old.items ++ big_bytes 1 (length pages.now)
        ++ flat_map page_bytes pages.now) }
    ensures long { OnOk result
        (vec_len text.new ≤ vec_len text.old + (1 + PAGE_AT_BYTES * BLOCK_PAGES)) }
    ensures kept { OnOk result (AllAre IsPageAt pages.now × (1 ≤ length pages.now)
        × (length pages.now ≤ BLOCK_PAGES)) }
{
    push_u8(text, pages.as_slice().len() as u8)?;
    push_pages(text, pages.as_slice())
}

fn push_redo(text: &mut Vec<u8>, from: u64, bytes: &RedoBytes) -> Result<(), AllocError>
    ensures text { OnOk result (text.new.items ≡ text.old.items ++ big_bytes 8 from
        ++ big_bytes 4 (length bytes.now) ++ bytes.now) }
    ensures long { OnOk result (vec_len text.new ≤ vec_len text.old + (12 + BLOCK_BYTES)) }
    ensures kept { OnOk result (HasWidth 8 from × IsBytes bytes.now × (1 ≤ length bytes.now)
        × (length bytes.now ≤ BLOCK_BYTES)) }
{
    push_u64(text, from)?;
    push_u32(text, bytes.as_slice().len() as u32)?;
    push_bytes(text, bytes.as_slice())
}

#[tactic(auto, unfolding(crate::specs::Spelling::plan_bytes))]
fn push_plan(text: &mut Vec<u8>, plan: &StagePlan) -> Result<(), AllocError>
    ensures text { OnOk result (text.new.items ≡ text.old.items
        ++ big_bytes 1 (stage_number (stage_of plan.now)) ++ big_bytes 4 (chunks_of plan.now)
        ++ big_bytes 8 (checkpoint_of plan.now) ++ big_bytes 8 (lsn_of plan.now)
        ++ big_bytes 8 (position_of plan.now) ++ big_bytes 2 (length (spaces_of plan.now))
        ++ flat_map space_bytes (spaces_of plan.now)) }
    ensures long { OnOk result
        (vec_len text.new ≤ vec_len text.old + (31 + SPACE_BYTES * SPACE_LIMIT)) }
    ensures kept { OnOk result (HasWidth 4 (chunks_of plan.now)
        × HasWidth 8 (checkpoint_of plan.now) × HasWidth 8 (lsn_of plan.now)
        × HasWidth 8 (position_of plan.now) × AllAre IsSpace (spaces_of plan.now)
        × (length (spaces_of plan.now) ≤ SPACE_LIMIT)) }
{
    push_u8(text, plan.stage().number())?;
    push_u32(text, plan.chunks())?;
    push_u64(text, plan.checkpoint())?;
    push_u64(text, plan.lsn())?;
    push_u64(text, plan.position())?;
    push_u16(text, plan.spaces().len() as u16)?;
    push_spaces(text, plan.spaces())
}

fn push_stage(text: &mut Vec<u8>, attempt: Attempt, plan: &StagePlan) -> Result<(), AllocError>
    ensures text { OnOk result (text.new.items ≡ text.old.items ++ attempt_bytes attempt
        ++ plan_bytes plan.now) }
    ensures long { OnOk result
        (vec_len text.new ≤ vec_len text.old + (STAGE_FIELDS + SPACE_BYTES * SPACE_LIMIT)) }
    ensures kept { OnOk result (IsAttempt attempt × IsPlan plan.now) }
{
    push_attempt(text, attempt)?;
    push_plan(text, plan)
}

fn push_pages_block(
    text: &mut Vec<u8>,
    attempt: Attempt,
    stage: PageStage,
    chunk: u32,
    block: u8,
    pages: &Pages,
) -> Result<(), AllocError>
    ensures text { OnOk result (text.new.items ≡ text.old.items ++ big_bytes 8 attempt.session
        ++ big_bytes 4 attempt.incarnation ++ big_bytes 1 (page_number stage) ++ big_bytes 4 chunk
        ++ big_bytes 1 block ++ big_bytes 1 (length pages.now) ++ flat_map page_bytes pages.now) }
    ensures long { OnOk result
        (vec_len text.new ≤ vec_len text.old + (PAGES_FIELDS + PAGE_AT_BYTES * BLOCK_PAGES)) }
    ensures kept { OnOk result (IsAttempt attempt × HasWidth 4 chunk × HasWidth 1 block
        × AllAre IsPageAt pages.now × (1 ≤ length pages.now) × (length pages.now ≤ BLOCK_PAGES)) }
{
    push_block(text, attempt, stage.number(), chunk, block)?;
    push_counted_pages(text, pages)
}

fn push_redo_block(
    text: &mut Vec<u8>,
    attempt: Attempt,
    chunk: u32,
    block: u8,
    from: u64,
    bytes: &RedoBytes,
) -> Result<(), AllocError>
    ensures text { OnOk result (text.new.items ≡ text.old.items ++ big_bytes 8 attempt.session
        ++ big_bytes 4 attempt.incarnation ++ big_bytes 1 3 ++ big_bytes 4 chunk
        ++ big_bytes 1 block ++ big_bytes 8 from ++ big_bytes 4 (length bytes.now) ++ bytes.now) }
    ensures long { OnOk result
        (vec_len text.new ≤ vec_len text.old + (REDO_FIELDS + BLOCK_BYTES)) }
    ensures kept { OnOk result (IsAttempt attempt × HasWidth 4 chunk × HasWidth 1 block
        × HasWidth 8 from × IsBytes bytes.now × (1 ≤ length bytes.now)
        × (length bytes.now ≤ BLOCK_BYTES)) }
{
    push_block(text, attempt, 3, chunk, block)?;
    push_redo(text, from, bytes)
}

pub(crate) fn push_payload(text: &mut Vec<u8>, frame: &Frame) -> Result<(), AllocError>
    ensures text { OnOk result (text.new.items ≡ text.old.items ++ payload frame.now) }
    ensures long { OnOk result
        (vec_len text.new ≤ vec_len text.old + (REINIT2_FIELDS + MOST_TAKEN)) }
    ensures kept { OnOk result (IsFrame frame.now) }
{
    match frame {
        Frame::Init {
            attempt,
            version,
            page_size,
            compressed,
            tasks,
        } => push_init(text, *attempt, *version, *page_size, *compressed, *tasks),
        Frame::Attach { attempt, task } => push_attach(text, *attempt, *task),
        Frame::Reinit {
            attempt,
            stage,
            finished,
        } => push_reinit(text, *attempt, *stage, finished),
        Frame::Reinit2 {
            attempt,
            stage,
            taken,
        } => push_reinit2(text, *attempt, *stage, taken),
        Frame::Execute { stage } => push_u8(text, stage.number()),
        Frame::Ack { stage, floor } => push_ack(text, *stage, *floor),
        Frame::Exit => Ok(()),
        Frame::Stage { attempt, plan } => push_stage(text, *attempt, plan),
        Frame::Pages {
            attempt,
            stage,
            chunk,
            block,
            pages,
        } => push_pages_block(text, *attempt, *stage, *chunk, *block, pages),
        Frame::Redo {
            attempt,
            chunk,
            block,
            from,
            bytes,
        } => push_redo_block(text, *attempt, *chunk, *block, *from, bytes),
        Frame::End { attempt, stage } => push_staged(text, *attempt, *stage),
        Frame::Refused { cause } => push_cause(text, *cause),
    }
}
