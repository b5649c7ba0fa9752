//! The spelling of a mini-transaction: its records in their order, then the byte 6; at most 1,024
//! bytes, numbers big-endian. A record is a code of 1 byte and its fields. 1 is INIT with space,
//! page and, in 2 bytes, kind; 2 is WRITE with space, page, and in 2 bytes each offset and length,
//! then the bytes; 3 is EXTEND and 4 CREATE, with space and number of pages; 5 is DROP with a
//! space. Spaces, pages and numbers of pages have 4 bytes.
ghost use Rattle.std.specs.Prelude.{◌≡◌, ◌++◌, ◌∷◌, length, IfOk, OnOk};
ghost use Rattle.byteorder.specs.Endian.{big_bytes};
ghost use Rattle.clone_mtr.specs.Answers.{Encodes};
ghost use Rattle.clone_mtr.specs.Spelling.{record_spelling, spelling, Spells};

use crate::{EncodeRefusal, Mtr, Patch, Record};
use clone_bytes::Writer;
use std::alloc::{AllocError, Global};

/// The most bytes that the spelling of a mini-transaction may have.
pub const LONGEST_MTR: usize = 1024;

/// The one spelling of a mini-transaction. It is refused exactly where it would be longer than
/// 1,024 bytes.
pub fn encode(alloc: Global, mtr: &Mtr) -> Result<Vec<u8>, EncodeRefusal>
    ensures exact { Encodes (spelling mtr.now) result }
    ensures spells { IfOk result (λ text. Spells text.items mtr.now) }
{
    match spell(alloc, mtr.records()) {
        Ok(text) => {
            if text.len() > LONGEST_MTR {
                Err(EncodeRefusal::TooLong { length: text.len() })
            } else {
                Ok(text)
            }
        }
        Err(_) => Err(EncodeRefusal::NoMemory),
    }
}

// The spelling of the records, however long it is.
fn spell(alloc: Global, records: &[Record]) -> Result<Vec<u8>, AllocError>
    ensures { IfOk result (λ text. text.items ≡ spelling records.now) }
{
    let mut text = Writer::new(alloc);
    for entry in records {
        push_record(&mut text, entry)?;
    }
    text.u8(6)?;
    Ok(text.into_bytes())
}

// Writes the spelling of a record behind the text.
fn push_record(text: &mut Writer, entry: &Record) -> Result<(), AllocError>
    ensures { OnOk result (text.new ≡ text.old ++ record_spelling entry.now) }
{
    match entry {
        Record::Init { space, page, kind } => {
            push_pair(text, 1, *space, *page)?;
            text.u16(kind.number())
        }
        Record::Write { space, page, patch } => {
            push_pair(text, 2, *space, *page)?;
            push_patch(text, patch)
        }
        Record::Extend { space, pages } => push_pair(text, 3, *space, *pages),
        Record::Create { space, pages } => push_pair(text, 4, *space, *pages),
        Record::Drop { space } => {
            text.u8(5)?;
            text.u32(*space)
        }
    }
}

// Writes the byte of a record's kind and two numbers behind the text.
fn push_pair(text: &mut Writer, kind: u8, first: u32, second: u32) -> Result<(), AllocError>
    ensures { OnOk result
        (text.new ≡ text.old ++ kind ∷ (big_bytes 4 first ++ big_bytes 4 second)) }
{
    text.u8(kind)?;
    text.u32(first)?;
    text.u32(second)
}

// Writes the offset, the length and the bytes of a patch behind the text.
fn push_patch(text: &mut Writer, patch: &Patch) -> Result<(), AllocError>
    ensures { OnOk result (text.new ≡ text.old ++ (big_bytes 2 patch.now.offset
        ++ (big_bytes 2 (length patch.now.bytes) ++ patch.now.bytes))) }
{
    let bytes = patch.bytes();
    text.u16(patch.offset())?;
    text.u16(bytes.len() as u16)?;
    text.bytes(bytes)
}
