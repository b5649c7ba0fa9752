//! The payload of REINIT2: the fields of REINIT, then the number of partial chunks in 4 bytes, and
//! each with its chunk in 4 and its mask in 1. The chunks ascend, and none has its bit set in the
//! bitmap. A field out of its range is named by the offset at which it begins.
ghost use Rattle.std.specs.Prelude.{◌≡◌, ◌<◌, ◌≤◌, ◌+◌, ◌-◌, ◌*◌, ◌^◌, length, IfOk};
ghost use Rattle.clone_chunk.specs.Partials.{AreUnset};
ghost use Rattle.clone_chunk.specs.declared.bitmap.TheConstants.{MOST_CHUNKS};
ghost use Rattle.clone_chunk.specs.declared.partials.TheConstants.{MOST_PARTIAL};
ghost use Rattle.clone_wire.specs.declared.limits.TheConstants.{MOST_BITMAP, MOST_TAKEN};
ghost use Rattle.clone_wire.specs.Choices.{bitmap_sizes};
ghost use Rattle.clone_wire.specs.Frames.{IsOneOf};
ghost use Rattle.clone_wire.specs.Ranges.{IsNext, IsNextPartial};
ghost use Rattle.clone_wire.specs.Reading.{Gives, any_unset, bytes_for, count_in, chunk_in};
ghost use Rattle.clone_wire.specs.Reading.{partial_in, partials, listed, taken_in, reinit2};

use crate::Frame;
use crate::fault::Fault;
use crate::fields::{attempt_of, copy_of, number_in, span_of};
use crate::limits::{MOST_BITMAP, PARTIAL_BYTES};
use crate::numbers::Numbers;
use crate::payloads::bitmap_of;
use clone_bytes::Reader;
use clone_chunk::{MOST_MASK, MOST_PARTIAL, PartialChunk, Partials, TakenBlocks, is_set};
use std::alloc::Global;

// The bitmap and the partial chunks have `long` bytes together.
pub(crate) fn reinit2_of(alloc: Global, long: usize, reader: &mut Reader) -> Result<Frame, Fault>
    requires { long ≤ MOST_TAKEN }
    ensures { Gives (λ x. (x, reader.new)) result ((reinit2 long).read reader.old) }
{
    let attempt = attempt_of(reader)?;
    let stage = copy_of(17, reader)?;
    let taken = taken_of(alloc, long, reader)?;
    Ok(Frame::Reinit2 {
        attempt,
        stage,
        taken,
    })
}

fn taken_of(alloc: Global, long: usize, reader: &mut Reader) -> Result<TakenBlocks, Fault>
    requires { long ≤ MOST_TAKEN }
    ensures { Gives (λ x. (x, reader.new)) result ((taken_in long).read reader.old) }
{
    let count = count_of(18, bitmap_sizes(long), reader)?;
    let n = count.div_ceil(8) as usize;
    let finished = bitmap_of(alloc, 22, count, n, reader)?;
    let bitmap = finished.bytes();
    let partials = listed_of(alloc, 22 + n, bitmap, (long - n) / PARTIAL_BYTES, reader)?;
    Ok(TakenBlocks::new(finished, partials))
}

// How many bytes the bitmap may have: what is left is whole partial chunks, and not too many.
fn bitmap_sizes(long: usize) -> Numbers
    ensures { result ≡ bitmap_sizes long }
{
    let partials = MOST_PARTIAL.min(long / PARTIAL_BYTES);
    let least = long - PARTIAL_BYTES * partials;
    Numbers::in_steps(
        least as u64,
        long.min(MOST_BITMAP) as u64,
        PARTIAL_BYTES as u64,
    )
}

// A number of chunks whose bitmap has one of these numbers of bytes.
fn count_of(at: usize, sizes: Numbers, reader: &mut Reader) -> Result<u64, Fault>
    requires { 0 < sizes.step }
    ensures gives { Gives (λ x. (x, reader.new)) result ((count_in at sizes).read reader.old) }
    ensures one { IfOk result (λ count. IsOneOf sizes (bytes_for count)) }
{
    let bytes = reader.rest();
    if bytes.is_empty() {
        return Err(Fault::Short);
    }
    let (low, high) = span_of(4, bytes);
    if !sizes.has_between(low.div_ceil(8), high.div_ceil(8)) {
        return Err(Fault::Garbled { at });
    }
    reader.take(4)?;
    Ok(low)
}

// There are `n` partial chunks.
fn listed_of(
    alloc: Global,
    at: usize,
    bitmap: &[u8],
    n: usize,
    reader: &mut Reader,
) -> Result<Partials, Fault>
    requires n { n ≤ MOST_PARTIAL }
    requires at { at ≤ 22 + MOST_BITMAP }
    ensures gives { Gives (λ x. ((length x, x), reader.new)) result
        ((listed at bitmap.now n).read reader.old) }
    ensures unset { IfOk result (AreUnset bitmap.now) }
{
    number_in(at, 4, Numbers::only(n as u64), reader)?;
    partials_of(alloc, at + 4, bitmap, n, reader)
}

fn partials_of(
    alloc: Global,
    at: usize,
    bitmap: &[u8],
    n: usize,
    reader: &mut Reader,
) -> Result<Partials, Fault>
    requires n { n ≤ MOST_PARTIAL }
    requires at { at ≤ 26 + MOST_BITMAP }
    ensures gives { Gives (λ x. (x, reader.new)) result
        ((partials at bitmap.now 0 n).read reader.old) }
    ensures long { IfOk result (λ x. length x ≡ n) }
    ensures unset { IfOk result (AreUnset bitmap.now) }
{
    let mut partials = Partials::new(alloc);
    let mut from: u64 = 0;
    for done in 0..n {
        let field = at + PARTIAL_BYTES * done;
        let partial = partial_of(field, bitmap, from, n - done - 1, reader)?;
        partials.push(partial)?;
        from = partial.chunk as u64 + 1;
    }
    Ok(partials)
}

// A partial chunk from this one on, which `more` others follow.
fn partial_of(
    at: usize,
    bitmap: &[u8],
    from: u64,
    more: usize,
    reader: &mut Reader,
) -> Result<PartialChunk, Fault>
    requires from { from ≤ 2 ^ 32 }
    requires more { more ≤ MOST_PARTIAL }
    requires at { at < 2 ^ 32 }
    ensures gives { Gives (λ x. (x, reader.new)) result
        ((partial_in at bitmap.now from more).read reader.old) }
    ensures next { IfOk result (IsNextPartial bitmap.now from more) }
{
    let chunk = chunk_of(at, bitmap, from, more, reader)?;
    let mask = number_in(at + 4, 1, Numbers::between(1, MOST_MASK as u64), reader)?;
    Ok(PartialChunk {
        chunk: chunk as u32,
        mask: mask as u8,
    })
}

fn chunk_of(
    at: usize,
    bitmap: &[u8],
    from: u64,
    more: usize,
    reader: &mut Reader,
) -> Result<u64, Fault>
    requires from { from ≤ 2 ^ 32 }
    requires more { more ≤ MOST_PARTIAL }
    ensures gives { Gives (λ x. (x, reader.new)) result
        ((chunk_in at bitmap.now from more).read reader.old) }
    ensures next { IfOk result (IsNext bitmap.now from more) }
{
    let bytes = reader.rest();
    if bytes.is_empty() {
        return Err(Fault::Short);
    }
    let (low, high) = span_of(4, bytes);
    let last = high.min(u32::MAX as u64 - more as u64);
    if !any_unset(bitmap, from.max(low), last) {
        return Err(Fault::Garbled { at });
    }
    reader.take(4)?;
    Ok(low)
}

// Whether one of the chunks from the first up to the last has no bit set.
#[tactic(auto, unfolding(crate::specs::Reading::any_unset))]
fn any_unset(bitmap: &[u8], first: u64, last: u64) -> bool
    requires { last ≤ u32.MAX }
    ensures { result ≡ any_unset bitmap.now first (last + 1 - first) }
{
    for chunk in first..last + 1 {
        if !is_set(bitmap, chunk as u32) {
            return true;
        }
    }
    false
}
