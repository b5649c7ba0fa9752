ghost use Rattle.std.specs.Prelude.{◌≡◌, ◌≢◌, ◌<◌, ◌≤◌, ◌+◌, ◌-◌, ◌^◌, length, IfOk};
ghost use Rattle.byteorder.specs.Endian.{big_number};
ghost use Rattle.clone_bytes.specs.Fields.{IsBytes};
ghost use Rattle.clone_bytes.specs.Formats.{number_at, run_at};
ghost use Rattle.clone_wire.specs.Frames.{IsOneOf};
ghost use Rattle.clone_wire.specs.Reading.{Gives, number_in, flag_in, copy_in, pages_in, attempt};
ghost use Rattle.clone_wire.specs.declared.fault.Fault.TheVariants.{Short};

use crate::fault::Fault;
use crate::numbers::Numbers;
use crate::{Attempt, PageStage};
use byteorder::{BigEndian, ByteOrder};
use clone_bytes::Reader;
use clone_chunk::CopyStage;

// Each function answers the value of the field at the front, and leaves the bytes after it.

pub(crate) fn u8_of(reader: &mut Reader) -> Result<u8, Fault>
    ensures { Gives (λ x. (x, reader.new)) result (number_at Short 1 reader.old) }
{
    Ok(reader.u8()?)
}

pub(crate) fn u16_of(reader: &mut Reader) -> Result<u16, Fault>
    ensures { Gives (λ x. (x, reader.new)) result (number_at Short 2 reader.old) }
{
    Ok(reader.u16()?)
}

pub(crate) fn u32_of(reader: &mut Reader) -> Result<u32, Fault>
    ensures { Gives (λ x. (x, reader.new)) result (number_at Short 4 reader.old) }
{
    Ok(reader.u32()?)
}

pub(crate) fn u64_of(reader: &mut Reader) -> Result<u64, Fault>
    ensures { Gives (λ x. (x, reader.new)) result (number_at Short 8 reader.old) }
{
    Ok(reader.u64()?)
}

pub(crate) fn bytes_of<'a>(reader: &mut Reader<'a>, n: usize) -> Result<&'a [u8], Fault>
    ensures gives { Gives (λ x. (x.now, reader.new)) result (run_at Short n reader.old) }
    ensures long { IfOk result (λ x. length x.now ≡ n) }
{
    Ok(reader.take(n)?)
}

pub(crate) fn attempt_of(reader: &mut Reader) -> Result<Attempt, Fault>
    ensures { Gives (λ x. (x, reader.new)) result ((attempt).read reader.old) }
{
    let session = u64_of(reader)?;
    let incarnation = u32_of(reader)?;
    Ok(Attempt {
        session,
        incarnation,
    })
}

pub(crate) fn flag_of(at: usize, reader: &mut Reader) -> Result<bool, Fault>
    ensures { Gives (λ x. (x, reader.new)) result ((flag_in at).read reader.old) }
{
    let number = number_in(at, 1, Numbers::between(0, 1), reader)?;
    Ok(number == 1)
}

pub(crate) fn copy_of(at: usize, reader: &mut Reader) -> Result<CopyStage, Fault>
    ensures { Gives (λ x. (x, reader.new)) result ((copy_in at).read reader.old) }
{
    let number = number_in(at, 1, Numbers::between(1, 3), reader)?;
    Ok(CopyStage::numbered(number))
}

pub(crate) fn pages_stage_of(at: usize, reader: &mut Reader) -> Result<PageStage, Fault>
    ensures { Gives (λ x. (x, reader.new)) result ((pages_in at).read reader.old) }
{
    let number = number_in(at, 1, Numbers::between(1, 2), reader)?;
    Ok(PageStage::numbered(number))
}

// A number of `width` bytes, which is one of these. The field begins at `at`.
pub(crate) fn number_in(
    at: usize,
    width: usize,
    numbers: Numbers,
    reader: &mut Reader,
) -> Result<u64, Fault>
    requires steps { 0 < numbers.step }
    requires wide { 1 ≤ width }
    requires narrow { width ≤ 8 }
    ensures gives { Gives (λ x. (x, reader.new)) result
        ((number_in at width numbers).read reader.old) }
    ensures one { IfOk result (IsOneOf numbers) }
    ensures memory { result ≢ Err Fault.NoMemory }
{
    let bytes = reader.rest();
    if bytes.is_empty() {
        return Err(Fault::Short);
    }
    let (low, high) = span_of(width, bytes);
    if !numbers.has_between(low, high) {
        return Err(Fault::Garbled { at });
    }
    reader.take(width)?;
    Ok(low)
}

// The least and the greatest number of so many bytes that begin with those that are there.
pub(crate) fn span_of(width: usize, bytes: &[u8]) -> (u64, u64)
    requires some { 1 ≤ length bytes.now }
    requires wide { 1 ≤ width }
    requires narrow { width ≤ 8 }
    ensures bytes { IsBytes bytes.now }
    ensures low { result.0 ≡ big_number width bytes.now }
    ensures high { result.1 ≡ result.0 + (256 ^ (width - length bytes.now) - 1) }
{
    let there = width.min(bytes.len());
    let unit = 256_u64.pow((width - there) as u32);
    let low = BigEndian::read_uint(bytes, there) * unit;
    (low, low + (unit - 1))
}
