ghost use Rattle.std.specs.Prelude.{◌≡◌, ◌≢◌, ◌≤◌, length, IfOk};
ghost use Rattle.clone_bytes.specs.Formats.{number_at, run_at};
ghost use Rattle.clone_follow.specs.Choices.{AreInOrder, IsOneOf};
ghost use Rattle.clone_follow.specs.Reading.{Gives, one_in};
ghost use Rattle.clone_follow.specs.declared.fault.Fault.TheVariants.{Short};

use crate::fault::Fault;
use crate::numbers::Numbers;
use clone_bytes::Reader;

// Each function answers the value of the field at the front, and leaves the bytes after it.

pub(crate) fn u32_of(reader: &mut Reader) -> Result<u32, Fault>
    ensures { Gives (λ x. (x, reader.new)) result (number_at Short 4 reader.old) }
{
    Ok(reader.u32()?)
}

pub(crate) fn u64_of(reader: &mut Reader) -> Result<u64, Fault>
    ensures { Gives (λ x. (x, reader.new)) result (number_at Short 8 reader.old) }
{
    Ok(reader.u64()?)
}

pub(crate) fn bytes_of<'a>(reader: &mut Reader<'a>, n: usize) -> Result<&'a [u8], Fault>
    ensures gives { Gives (λ x. (x.now, reader.new)) result (run_at Short n reader.old) }
    ensures long { IfOk result (λ x. length x.now ≡ n) }
{
    Ok(reader.take(n)?)
}

// A number of `width` bytes, which is one of these. The field begins at `at`. It is read byte by
// byte, so that the first byte with which none of them begins is found.
pub(crate) fn number_in(
    at: usize,
    width: usize,
    numbers: Numbers,
    reader: &mut Reader,
) -> Result<u64, Fault>
    requires wide { 1 ≤ width }
    requires narrow { width ≤ 4 }
    requires order { AreInOrder numbers }
    ensures gives { Gives (λ x. (x, reader.new)) result (one_in at width numbers reader.old) }
    ensures one { IfOk result (IsOneOf numbers) }
    ensures memory { result ≢ Err Fault.NoMemory }
{
    let mut front = 0;
    for read in 0..width {
        let byte = reader.u8()?;
        front = front * 256 + byte as u64;
        let unit = 256_u64.pow((width - read - 1) as u32);
        let least = front * unit;
        if !numbers.has_between(least, least + (unit - 1)) {
            return Err(Fault::Garbled { at });
        }
    }
    Ok(front)
}
