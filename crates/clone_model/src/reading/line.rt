ghost use Rattle.std.specs.Prelude.{ℕ, ◌≡◌, ◌<◌, ◌^◌, ◌++◌, List, IfSome, IfNone};
ghost use Rattle.clone_model.specs.Texts.{ended, change_text};
ghost use Rattle.clone_model.specs.Reading.{IsChange, first_line};
ghost use Rattle.clone_model.specs.declared.change.Change.{Change};

use super::number::{as_u32, leading_number, number_of};
use super::split::split_once;
use super::value::value_or_none;
use crate::Change;

/// The writer, the index and the number of changes that the first line of a text shows as the first
/// line of a commit, and what stands behind that line.
pub fn leading_first_line(text: &[u8]) -> Option<((u32, u64, u64), &[u8])>
    ensures some { IfSome result
        (λ read. (read.0.0 < 2 ^ 32) × (read.0.1 < 2 ^ 64) × (read.0.2 < 2 ^ 64)
        × (text.now ≡ ended (first_line read.0.0 read.0.1 read.0.2) ++ read.1.now)) }
    ensures none { IfNone result ((writer index count : ℕ) (behind : List ℕ) → writer < 2 ^ 32
        → index < 2 ^ 64 → count < 2 ^ 64
        → text.now ≡ ended (first_line writer index count) ++ behind → ⊥) }
{
    let (line, behind) = split_once(text, b'\n')?;
    Some((commit_fields(line)?, behind))
}

/// The change that the first line of a text shows, and what stands behind that line.
pub fn leading_change(text: &[u8]) -> Option<(Change, &[u8])>
    ensures some { IfSome result
        (λ read. IsChange read.0 × (text.now ≡ ended (change_text read.0) ++ read.1.now)) }
    ensures none { IfNone result ((change : Change) (behind : List ℕ) → IsChange change
        → text.now ≡ ended (change_text change) ++ behind → ⊥) }
{
    let (line, behind) = split_once(text, b'\n')?;
    Some((change(line)?, behind))
}

/// The writer, the index and the number of changes in the first line of a commit.
fn commit_fields(line: &[u8]) -> Option<(u32, u64, u64)>
    ensures some { IfSome result (λ read. (read.0 < 2 ^ 32) × (read.1 < 2 ^ 64) × (read.2 < 2 ^ 64)
        × (line.now ≡ first_line read.0 read.1 read.2)) }
    ensures none { IfNone result
        ((writer index count : ℕ) → writer < 2 ^ 32 → index < 2 ^ 64 → count < 2 ^ 64
        → line.now ≡ first_line writer index count → ⊥) }
{
    let fields = line.strip_prefix(b"commit ")?;
    let (writer, fields) = leading_number(fields)?;
    let (index, count) = leading_number(fields)?;
    Some((as_u32(writer)?, index, number_of(count)?))
}

/// The change that has this text: a table, a key, and a value or `none`.
fn change(line: &[u8]) -> Option<Change>
    ensures some { IfSome result (λ change. IsChange change × (line.now ≡ change_text change)) }
    ensures none { IfNone result
        ((change : Change) → IsChange change → line.now ≡ change_text change → ⊥) }
{
    let (table, fields) = leading_number(line)?;
    let (key, value) = leading_number(fields)?;
    Some(Change {
        table: as_u32(table)?,
        key,
        value: value_or_none(value)?,
    })
}
