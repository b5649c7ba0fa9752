//! The fields of each payload, at their distances from the beginning of the frame, in the order
//! that `specs/Spelling.antt` gives. The payload begins at 5. A field out of its range is named by
//! the offset at which it begins.
ghost use Rattle.std.specs.Prelude.{◌≡◌, ◌≤◌, ◌+◌, ◌/◌};
ghost use Rattle.clone_base.specs.declared.limits.TheConstants.{PAGE_SIZE, SPACE_LIMIT};
ghost use Rattle.clone_base.specs.declared.limits.TheConstants.{BLOCK_PAGES, BLOCK_BYTES};
ghost use Rattle.clone_wire.specs.Choices.{any_if};
ghost use Rattle.clone_chunk.specs.declared.bitmap.TheConstants.{MOST_CHUNKS};
ghost use Rattle.clone_wire.specs.declared.limits.TheConstants.{MOST_BITMAP};
ghost use Rattle.clone_wire.specs.Reading.{Gives, init, attach, reinit, ack, stage, pages, redo};
ghost use Rattle.clone_wire.specs.Reading.{framed, space, page, bitmap, planned};
ghost use Rattle.clone_wire.specs.Reading.{stage_plan, cause, value_count, copy_in, attempt};
ghost use Rattle.clone_wire.specs.declared.frame.Frame.TheVariants.{Execute, End, Refused};
ghost use Rattle.clone_wire.specs.declared.fault.Fault.TheVariants.{Short};
ghost use Rattle.clone_bytes.specs.Formats.{◌&◌, list, run_at};

use crate::Frame;
use crate::fault::Fault;
use crate::fields::{
    attempt_of, bytes_of, copy_of, flag_of, number_in, pages_stage_of, u8_of, u16_of, u32_of,
    u64_of,
};
use crate::numbers::Numbers;
use clone_base::PAGE_SIZE;
use clone_bytes::Reader;
use clone_chunk::{Bitmap, CloneCause, RedoBytes, SpaceSize, Spaces, StagePlan, ends_at};
use clone_page::{Page, PageAt, Pages};
use std::alloc::Global;

// Each function reads a payload, which begins at offset 5 of its frame.

pub(crate) fn init_of(reader: &mut Reader) -> Result<Frame, Fault>
    ensures { Gives (λ x. (x, reader.new)) result ((init).read reader.old) }
{
    let version = u16_of(reader)?;
    let page_size = u32_of(reader)?;
    let compressed = flag_of(11, reader)?;
    let tasks = u8_of(reader)?;
    let attempt = attempt_of(reader)?;
    Ok(Frame::Init {
        attempt,
        version,
        page_size,
        compressed,
        tasks,
    })
}

pub(crate) fn attach_of(reader: &mut Reader) -> Result<Frame, Fault>
    ensures { Gives (λ x. (x, reader.new)) result ((attach).read reader.old) }
{
    let attempt = attempt_of(reader)?;
    let task = u8_of(reader)?;
    Ok(Frame::Attach { attempt, task })
}

pub(crate) fn execute_of(reader: &mut Reader) -> Result<Frame, Fault>
    ensures { Gives (λ x. (x, reader.new)) result ((framed Execute (copy_in 5)).read reader.old) }
{
    let stage = copy_of(5, reader)?;
    Ok(Frame::Execute { stage })
}

pub(crate) fn ack_of(reader: &mut Reader) -> Result<Frame, Fault>
    ensures { Gives (λ x. (x, reader.new)) result ((ack).read reader.old) }
{
    let stage = copy_of(5, reader)?;
    let floor = u64_of(reader)?;
    Ok(Frame::Ack { stage, floor })
}

pub(crate) fn end_of(reader: &mut Reader) -> Result<Frame, Fault>
    ensures { Gives (λ x. (x, reader.new)) result
        ((framed (λ x. End x.0 x.1) (attempt & copy_in 17)).read reader.old) }
{
    let attempt = attempt_of(reader)?;
    let stage = copy_of(17, reader)?;
    Ok(Frame::End { attempt, stage })
}

// The bitmap has `n` bytes.
pub(crate) fn reinit_of(alloc: Global, n: usize, reader: &mut Reader) -> Result<Frame, Fault>
    requires { n ≤ MOST_BITMAP }
    ensures { Gives (λ x. (x, reader.new)) result ((reinit n).read reader.old) }
{
    let attempt = attempt_of(reader)?;
    let stage = copy_of(17, reader)?;
    let bits = 8 * n as u64;
    let count = number_in(
        18,
        4,
        Numbers::between(bits.saturating_sub(7), bits),
        reader,
    )?;
    let finished = bitmap_of(alloc, 22, count, n, reader)?;
    Ok(Frame::Reinit {
        attempt,
        stage,
        finished,
    })
}

pub(crate) fn bitmap_of(
    alloc: Global,
    at: usize,
    count: u64,
    n: usize,
    reader: &mut Reader,
) -> Result<Bitmap, Fault>
    requires few { count ≤ MOST_CHUNKS }
    requires long { n ≡ (count + 7) / 8 }
    ensures { Gives (λ x. (x, reader.new)) result ((bitmap at count n).read reader.old) }
{
    let bytes = bytes_of(reader, n)?;
    if !ends_at(count as u32, bytes) {
        return Err(Fault::Garbled { at });
    }
    Ok(Bitmap::from_bytes(alloc, count as u32, bytes)?)
}

fn space_of(reader: &mut Reader) -> Result<SpaceSize, Fault>
    ensures { Gives (λ x. (x, reader.new)) result ((space).read reader.old) }
{
    let space = u32_of(reader)?;
    let pages = u32_of(reader)?;
    Ok(SpaceSize { space, pages })
}

fn spaces_of(alloc: Global, n: usize, reader: &mut Reader) -> Result<Spaces, Fault>
    requires { n ≤ SPACE_LIMIT }
    ensures { Gives (λ x. (x, reader.new)) result ((list space n).read reader.old) }
{
    let mut spaces = Spaces::new(alloc);
    for _ in 0..n {
        let space = space_of(reader)?;
        spaces.push(space)?;
    }
    Ok(spaces)
}

// There are `n` spaces.
pub(crate) fn stage_of(alloc: Global, n: usize, reader: &mut Reader) -> Result<Frame, Fault>
    requires { n ≤ SPACE_LIMIT }
    ensures { Gives (λ x. (x, reader.new)) result ((stage n).read reader.old) }
{
    let attempt = attempt_of(reader)?;
    let plan = plan_of(alloc, n, reader)?;
    Ok(Frame::Stage { attempt, plan })
}

fn plan_of(alloc: Global, n: usize, reader: &mut Reader) -> Result<StagePlan, Fault>
    requires { n ≤ SPACE_LIMIT }
    ensures { Gives (λ x. (x, reader.new)) result ((stage_plan n).read reader.old) }
{
    let most = if n == 0 { 4 } else { 2 };
    let stage = number_in(17, 1, Numbers::between(1, most), reader)?;
    let chunks = number_in(18, 4, any_if(stage != 4, 0xFFFF_FFFF), reader)?;
    let checkpoint = number_in(22, 8, any_if(stage >= 3, u64::MAX), reader)?;
    let lsn = number_in(30, 8, any_if(stage >= 3, u64::MAX), reader)?;
    let position = number_in(38, 8, any_if(stage >= 2, u64::MAX), reader)?;
    number_in(46, 2, Numbers::only(n as u64), reader)?;
    let spaces = spaces_of(alloc, n, reader)?;
    Ok(planned(stage, chunks as u32, checkpoint, lsn, position, spaces))
}

// All numbers up to the most where the frame has a value there, and else 0.
fn any_if(has: bool, most: u64) -> Numbers
    ensures { result ≡ any_if has most }
{
    Numbers::between(0, if has { most } else { 0 })
}

fn planned(
    stage: u64,
    chunks: u32,
    checkpoint: u64,
    lsn: u64,
    position: u64,
    spaces: Spaces,
) -> StagePlan
    ensures { result ≡ planned stage chunks checkpoint lsn position spaces }
{
    match stage {
        1 => StagePlan::FileCopy { chunks, spaces },
        2 => StagePlan::PageCopy {
            chunks,
            position,
            spaces,
        },
        3 => StagePlan::RedoCopy {
            chunks,
            checkpoint,
            lsn,
            position,
        },
        _ => StagePlan::Done {
            checkpoint,
            lsn,
            position,
        },
    }
}

fn page_of(reader: &mut Reader) -> Result<PageAt, Fault>
    ensures { Gives (λ x. (x, reader.new)) result ((page).read reader.old) }
{
    let space = u32_of(reader)?;
    let number = u32_of(reader)?;
    let page = body_of(reader)?;
    Ok(PageAt {
        space,
        number,
        page,
    })
}

fn body_of(reader: &mut Reader) -> Result<Page, Fault>
    ensures { Gives (λ x. (x, reader.new)) result (run_at Short PAGE_SIZE reader.old) }
{
    let bytes = bytes_of(reader, PAGE_SIZE)?;
    Ok(Page::from_bytes(bytes))
}

fn pages_of(alloc: Global, n: usize, reader: &mut Reader) -> Result<Pages, Fault>
    requires some { 1 ≤ n }
    requires few { n ≤ BLOCK_PAGES }
    ensures { Gives (λ x. (x, reader.new)) result ((list page n).read reader.old) }
{
    let mut list = Vec::with_capacity(alloc, n)?;
    for _ in 0..n {
        let page = page_of(reader)?;
        list.push(page)?;
    }
    Ok(Pages::new(list))
}

// There are `n` pages.
pub(crate) fn pages_frame_of(alloc: Global, n: usize, reader: &mut Reader) -> Result<Frame, Fault>
    requires some { 1 ≤ n }
    requires few { n ≤ BLOCK_PAGES }
    ensures { Gives (λ x. (x, reader.new)) result ((pages n).read reader.old) }
{
    let attempt = attempt_of(reader)?;
    let stage = pages_stage_of(17, reader)?;
    let chunk = u32_of(reader)?;
    let block = u8_of(reader)?;
    number_in(23, 1, Numbers::only(n as u64), reader)?;
    let pages = pages_of(alloc, n, reader)?;
    Ok(Frame::Pages {
        attempt,
        stage,
        chunk,
        block,
        pages,
    })
}

// There are `n` bytes of redo.
pub(crate) fn redo_of(alloc: Global, n: usize, reader: &mut Reader) -> Result<Frame, Fault>
    requires some { 1 ≤ n }
    requires few { n ≤ BLOCK_BYTES }
    ensures { Gives (λ x. (x, reader.new)) result ((redo n).read reader.old) }
{
    let attempt = attempt_of(reader)?;
    number_in(17, 1, Numbers::only(3), reader)?;
    let chunk = u32_of(reader)?;
    let block = u8_of(reader)?;
    let from = u64_of(reader)?;
    number_in(31, 4, Numbers::only(n as u64), reader)?;
    let bytes = redo_bytes_of(alloc, n, reader)?;
    Ok(Frame::Redo {
        attempt,
        chunk,
        block,
        from,
        bytes,
    })
}

fn redo_bytes_of(alloc: Global, n: usize, reader: &mut Reader) -> Result<RedoBytes, Fault>
    requires some { 1 ≤ n }
    requires few { n ≤ BLOCK_BYTES }
    ensures { Gives (λ x. (x, reader.new)) result (run_at Short n reader.old) }
{
    let bytes = bytes_of(reader, n)?;
    Ok(RedoBytes::new(alloc, bytes)?)
}

pub(crate) fn refused_of(reader: &mut Reader) -> Result<Frame, Fault>
    ensures { Gives (λ x. (x, reader.new)) result ((framed Refused cause).read reader.old) }
{
    let cause = cause_of(reader)?;
    Ok(Frame::Refused { cause })
}

fn cause_of(reader: &mut Reader) -> Result<CloneCause, Fault>
    ensures { Gives (λ x. (x, reader.new)) result ((cause).read reader.old) }
{
    let number = number_in(5, 1, Numbers::between(1, 12), reader)?;
    let values = value_count(number);
    let first = number_in(6, 8, any_if(values >= 1, u64::MAX), reader)?;
    let second = number_in(14, 8, any_if(values >= 2, u64::MAX), reader)?;
    Ok(CloneCause::numbered(number, first, second))
}

// How many values the cause of this number has.
fn value_count(number: u64) -> u8
    ensures { result ≡ value_count number }
{
    match number {
        4 | 6 | 11 => 0,
        8 | 10 | 12 => 2,
        _ => 1,
    }
}
