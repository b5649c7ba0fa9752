ghost use Rattle.std.specs.Prelude.{◌≡◌, ◌≤◌, ◌+◌, option_map, IfOk};
ghost use Rattle.clone_bytes.specs.Formats.{byte_at, number_at, run_at};
ghost use Rattle.clone_mtr.specs.Reading.{Gives, code_judge, judge_of, begins, fits, sought, kind, patch, IsSought, fields, kind_numbered, item_at};
ghost use Rattle.clone_mtr.specs.References.{record_of};
ghost use Rattle.clone_mtr.specs.declared.refusal.DecodeRefusal.TheVariants.{Short};

use crate::{DecodeRefusal, LONGEST_MTR, PatchRef, RecordRef};
use clone_bytes::Reader;
use clone_page::{BODY_AT, LSN_AT, PREVIOUS_AT, PageKind, TRAILER_AT, is_allowed};

// Each function answers a value, which the reader is behind then. `at` is the offset where the
// record begins.

// What a number of two bytes has to be: a kind of page, or the offset or the length of a write.
#[derive(Clone, Copy)]
pub(crate) enum Sought {
    Kind,
    Offset,
    Length { offset: u16 },
}

/// The record at the front, or none where the end mark stands. `at` is the offset where it begins.
#[tactic(auto, unfolding(crate::specs::Reading::item_at))]
pub(crate) fn item_of<'a>(
    at: usize,
    reader: &mut Reader<'a>,
) -> Result<Option<RecordRef<'a>>, DecodeRefusal>
    requires { at ≤ LONGEST_MTR }
    ensures { Gives (λ x. (option_map record_of x, reader.new)) result
        (item_at at reader.old) }
{
    let code = u8_of(reader)?;
    admitted(at, code)?;
    fields_of(at, code, reader)
}

// Whether an item with this code may stand at this offset.
fn admitted(at: usize, code: u8) -> Result<(), DecodeRefusal>
    requires { at ≤ LONGEST_MTR }
    ensures { Gives (λ x. x) result (code_judge at code) }
{
    let least = match code {
        1 => 11,
        2 => 14,
        3 | 4 => 9,
        5 => 5,
        6 => return Ok(()),
        _ => return Err(DecodeRefusal::BadKind { at }),
    };
    if at + least >= LONGEST_MTR {
        return Err(DecodeRefusal::TooLong);
    }
    Ok(())
}

// What follows the code of an item: the record, or none after the code of the end mark.
fn fields_of<'a>(
    at: usize,
    code: u8,
    reader: &mut Reader<'a>,
) -> Result<Option<RecordRef<'a>>, DecodeRefusal>
    requires { at ≤ LONGEST_MTR }
    ensures { Gives (λ x. (option_map record_of x, reader.new)) result
        ((fields at code).read reader.old) }
{
    Ok(match code {
        1 => {
            let space = u32_of(reader)?;
            let page = u32_of(reader)?;
            let kind = kind_of(at + 9, reader)?;
            Some(RecordRef::Init { space, page, kind })
        }
        2 => {
            let space = u32_of(reader)?;
            let page = u32_of(reader)?;
            let patch = patch_of(at + 9, reader)?;
            Some(RecordRef::Write { space, page, patch })
        }
        3 => {
            let space = u32_of(reader)?;
            let pages = u32_of(reader)?;
            Some(RecordRef::Extend { space, pages })
        }
        4 => {
            let space = u32_of(reader)?;
            let pages = u32_of(reader)?;
            Some(RecordRef::Create { space, pages })
        }
        5 => {
            let space = u32_of(reader)?;
            Some(RecordRef::Drop { space })
        }
        _ => None,
    })
}

fn kind_of(at: usize, reader: &mut Reader) -> Result<PageKind, DecodeRefusal>
    requires { at ≤ LONGEST_MTR + 9 }
    ensures { Gives (λ x. (x, reader.new)) result ((kind at).read reader.old) }
{
    let number = two_of(at, Sought::Kind, reader)?;
    Ok(kind_numbered(number))
}

fn kind_numbered(number: u16) -> PageKind
    ensures { result ≡ kind_numbered number }
{
    match number {
        1 => PageKind::System,
        2 => PageKind::Undo,
        3 => PageKind::Bucket,
        _ => PageKind::Overflow,
    }
}

// `at` is where the offset stands.
fn patch_of<'a>(at: usize, reader: &mut Reader<'a>) -> Result<PatchRef<'a>, DecodeRefusal>
    requires low { 9 ≤ at }
    requires high { at ≤ LONGEST_MTR + 9 }
    ensures { Gives (λ x. (x, reader.new)) result ((patch at).read reader.old) }
{
    let offset = two_of(at, Sought::Offset, reader)?;
    let long = two_of(at, Sought::Length { offset }, reader)?;
    let body = bytes_of(reader, long as usize)?;
    Ok(PatchRef::new(offset, body))
}

fn two_of(at: usize, what: Sought, reader: &mut Reader) -> Result<u16, DecodeRefusal>
    requires { at ≤ LONGEST_MTR + 9 }
    ensures gives { Gives (λ x. (x, reader.new)) result ((sought at what).read reader.old) }
    ensures sought { IfOk result (IsSought at what) }
{
    let high = u8_of(reader)? as u16;
    judge(at, what, high * 256, high * 256 + 255)?;
    let low = u8_of(reader)? as u16;
    let number = high * 256 + low;
    judge(at, what, number, number)?;
    Ok(number)
}

// Whether one of the numbers from the least to the most is sought.
fn judge(at: usize, what: Sought, least: u16, most: u16) -> Result<(), DecodeRefusal>
    requires { at ≤ LONGEST_MTR + 9 }
    ensures { Gives (λ x. x) result (judge_of at what least most) }
{
    match what {
        Sought::Kind if least <= 4 && 1 <= most => Ok(()),
        Sought::Kind => Err(DecodeRefusal::BadKind { at }),
        Sought::Offset if begins(least, most) => Ok(()),
        Sought::Offset => Err(DecodeRefusal::OutOfPage { at }),
        Sought::Length { offset } => fitting(at, offset, least.max(most.min(1))),
    }
}

// Whether a write may begin at one of these offsets.
fn begins(least: u16, most: u16) -> bool
    ensures { result ≡ begins least most }
{
    let (least, most) = (least as usize, most as usize);
    PREVIOUS_AT <= most && least < LSN_AT || BODY_AT <= most && least < TRAILER_AT
}

// Whether a write may have so many bytes.
fn fitting(at: usize, offset: u16, long: u16) -> Result<(), DecodeRefusal>
    requires { at ≤ LONGEST_MTR + 9 }
    ensures { Gives (λ x. x) result (fits at offset long) }
{
    let long = long as usize;
    if !is_allowed(offset, long) {
        return Err(DecodeRefusal::OutOfPage { at });
    }
    if at + 4 + long >= LONGEST_MTR {
        return Err(DecodeRefusal::TooLong);
    }
    Ok(())
}

fn u8_of(reader: &mut Reader) -> Result<u8, DecodeRefusal>
    ensures { Gives (λ x. (x, reader.new)) result (byte_at Short reader.old) }
{
    Ok(reader.u8()?)
}

fn u32_of(reader: &mut Reader) -> Result<u32, DecodeRefusal>
    ensures { Gives (λ x. (x, reader.new)) result (number_at Short 4 reader.old) }
{
    Ok(reader.u32()?)
}

fn bytes_of<'a>(reader: &mut Reader<'a>, n: usize) -> Result<&'a [u8], DecodeRefusal>
    ensures { Gives (λ x. (x.now, reader.new)) result (run_at Short n reader.old) }
{
    Ok(reader.take(n)?)
}
