//! The spelling of a mini-transaction, laid at the front of bytes that are there: the same bytes
//! as in memory of its own. Where it would be longer than 1,024 bytes, nothing is laid.
ghost use Rattle.std.specs.Prelude.{◌≡◌, ◌≤◌, ◌+◌, ◌++◌, ◌∷◌, length, min};
ghost use Rattle.byteorder.specs.Endian.{big_bytes};
ghost use Rattle.clone_page.specs.Bytes.{put_at};
ghost use Rattle.clone_mtr.specs.Answers.{EncodesInto};
ghost use Rattle.clone_mtr.specs.Spelling.{record_spelling, spelling};

use crate::writing::LONGEST_MTR;
use crate::{Patch, Record, TooLong};
use byteorder::{BigEndian, ByteOrder};

/// Puts the one spelling of a mini-transaction of these records at the front of the bytes, and
/// answers its length. No memory is taken. It is refused exactly where the spelling would be longer
/// than 1,024 bytes, and the bytes are unchanged then.
pub fn encode_into(entries: &[Record], into: &mut [u8; LONGEST_MTR]) -> Result<usize, TooLong>
    requires { 1 ≤ length entries.now }
    ensures { EncodesInto (spelling entries.now) into.old into.new result }
{
    let length = spelling_length(entries);
    if length > LONGEST_MTR {
        return Err(TooLong { length });
    }
    lay(into, entries);
    Ok(length)
}

/// How many bytes the spelling of a mini-transaction of these records has, or the greatest number
/// where it has more.
pub fn spelling_length(entries: &[Record]) -> usize
    ensures { result ≡ min (length (spelling entries.now)) usize.MAX }
{
    let mut length: usize = 0;
    for entry in entries {
        length = length.saturating_add(record_length(entry));
    }
    length.saturating_add(1)
}

// How long the spelling of a record is.
fn record_length(entry: &Record) -> usize
    ensures value { result ≡ length (record_spelling entry.now) }
{
    match entry {
        Record::Init { .. } => 11,
        Record::Write { patch, .. } => 13 + patch.bytes().len(),
        Record::Extend { .. } | Record::Create { .. } => 9,
        Record::Drop { .. } => 5,
    }
}

// Puts the spelling of the records at the front.
fn lay(into: &mut [u8], entries: &[Record])
    requires { length (spelling entries.now) ≤ length into.old }
    ensures { into.new ≡ put_at 0 (spelling entries.now) into.old }
{
    let mut at = 0;
    for entry in entries {
        at = lay_record(into, at, entry);
    }
    lay_bytes(into, at, &[6]);
}

// Puts the spelling of a record at this offset. The answer is the offset behind it.
fn lay_record(into: &mut [u8], at: usize, entry: &Record) -> usize
    requires { at + length (record_spelling entry.now) ≤ length into.old }
    ensures text { into.new ≡ put_at at (record_spelling entry.now) into.old }
    ensures behind { result ≡ at + length (record_spelling entry.now) }
{
    match entry {
        Record::Init { space, page, kind } => {
            let at = lay_pair(into, at, 1, *space, *page);
            lay_u16(into, at, kind.number())
        }
        Record::Write { space, page, patch } => {
            let at = lay_pair(into, at, 2, *space, *page);
            lay_patch(into, at, patch)
        }
        Record::Extend { space, pages } => lay_pair(into, at, 3, *space, *pages),
        Record::Create { space, pages } => lay_pair(into, at, 4, *space, *pages),
        Record::Drop { space } => {
            let at = lay_bytes(into, at, &[5]);
            lay_u32(into, at, *space)
        }
    }
}

// Puts the byte of a record's kind and two numbers at this offset.
fn lay_pair(into: &mut [u8], at: usize, kind: u8, first: u32, second: u32) -> usize
    requires { at + 9 ≤ length into.old }
    ensures text { into.new
        ≡ put_at at (kind ∷ (big_bytes 4 first ++ big_bytes 4 second)) into.old }
    ensures behind { result ≡ at + 9 }
{
    let mut bytes = [kind, 0, 0, 0, 0, 0, 0, 0, 0];
    BigEndian::write_u32(&mut bytes[1..5], first);
    BigEndian::write_u32(&mut bytes[5..9], second);
    lay_bytes(into, at, &bytes)
}

// Puts the offset, the length and the bytes of a patch at this offset.
fn lay_patch(into: &mut [u8], at: usize, patch: &Patch) -> usize
    requires { at + (4 + length patch.now.bytes) ≤ length into.old }
    ensures text { into.new ≡ put_at at (big_bytes 2 patch.now.offset
        ++ (big_bytes 2 (length patch.now.bytes) ++ patch.now.bytes)) into.old }
    ensures behind { result ≡ at + (4 + length patch.now.bytes) }
{
    let bytes = patch.bytes();
    let at = lay_u16(into, at, patch.offset());
    let at = lay_u16(into, at, bytes.len() as u16);
    lay_bytes(into, at, bytes)
}

fn lay_u32(into: &mut [u8], at: usize, n: u32) -> usize
    requires { at + 4 ≤ length into.old }
    ensures text { into.new ≡ put_at at (big_bytes 4 n) into.old }
    ensures behind { result ≡ at + 4 }
{
    let mut bytes = [0; 4];
    BigEndian::write_u32(&mut bytes, n);
    lay_bytes(into, at, &bytes)
}

fn lay_u16(into: &mut [u8], at: usize, n: u16) -> usize
    requires { at + 2 ≤ length into.old }
    ensures text { into.new ≡ put_at at (big_bytes 2 n) into.old }
    ensures behind { result ≡ at + 2 }
{
    let mut bytes = [0; 2];
    BigEndian::write_u16(&mut bytes, n);
    lay_bytes(into, at, &bytes)
}

fn lay_bytes(into: &mut [u8], at: usize, bytes: &[u8]) -> usize
    requires { at + length bytes.now ≤ length into.old }
    ensures text { into.new ≡ put_at at bytes.now into.old }
    ensures behind { result ≡ at + length bytes.now }
{
    into[at..at + bytes.len()].copy_from_slice(bytes);
    at + bytes.len()
}
