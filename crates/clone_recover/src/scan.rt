//! A scan of redo bytes for a record that names a space that is no table.
ghost use Rattle.std.specs.Prelude.{◌≡◌, ◌≤◌, IfSome, true, false, length};
ghost use Rattle.std.specs.List.{AllByRecursion};
ghost use Rattle.clone_mtr.specs.References.{record_of};
ghost use Rattle.clone_recover.specs.Reading.{named_space, IsOfTable};

use clone_base::REDO_SPACE;
use clone_mtr::{RecordRef, Records};
use clone_page::{u16_at, u32_at};
use std::ops::Range;

/// The first record that names the redo's space or one behind it. The scan ends at the first byte
/// that begins no whole record.
pub fn first_foreign(bytes: &[u8]) -> Option<Range<usize>>
    ensures ascending { IfSome result (λ at. at.start ≤ at.end) }
    ensures within { IfSome result (λ at. at.end ≤ length bytes.now) }
{
    let mut at = 0;
    while let Some(length) = record_length(&bytes[at..]) {
        let end = at + length;
        if u32_at(bytes, at + 1) >= REDO_SPACE {
            return Some(at..end);
        }
        at = end;
    }
    None
}

// How long the record at the front is, if a whole one stands there.
fn record_length(bytes: &[u8]) -> Option<usize>
    ensures most { IfSome result (λ long. long ≤ length bytes.now) }
    ensures least { IfSome result (λ long. 5 ≤ long) }
{
    let length = match bytes.first()? {
        1 => 11,
        2 if bytes.len() >= 13 => 13 + u16_at(bytes, 11) as usize,
        3 | 4 => 9,
        5 => 5,
        _ => return None,
    };
    if length > bytes.len() {
        return None;
    }
    Some(length)
}

/// Whether one of the records names the redo's space or one behind it.
pub fn names_foreign(mut records: Records) -> bool
    ensures no { result ≡ false → AllByRecursion IsOfTable records.entry }
    ensures yes { result ≡ true → AllByRecursion IsOfTable records.entry → ⊥ }
{
    while let Some(entry) = records.next() {
        if space_of(&entry) >= REDO_SPACE {
            return true;
        }
    }
    false
}

// The space that a record names.
fn space_of(entry: &RecordRef) -> u32
    ensures { result ≡ named_space (record_of entry.now) }
{
    match entry {
        RecordRef::Init { space, .. }
        | RecordRef::Write { space, .. }
        | RecordRef::Extend { space, .. }
        | RecordRef::Create { space, .. }
        | RecordRef::Drop { space } => *space,
    }
}
