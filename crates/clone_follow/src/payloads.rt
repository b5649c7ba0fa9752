//! The fields of each payload, at their offsets from the beginning of the frame, in the order that
//! `specs/Spelling.antt` gives. The payload begins at 5, and COMMIT's changes at 27. A field that
//! can't be part of a frame is named by the offset at which it begins.
ghost use Rattle.std.specs.Prelude.{◌≡◌, ◌≤◌, ◌<◌, ◌+◌, ◌*◌, length, IfOk};
ghost use Rattle.clone_base.specs.declared.limits.TheConstants.{CHANGE_LIMIT, VALUE_LIMIT};
ghost use Rattle.clone_follow.specs.declared.limits.TheConstants.{CHANGE_FIELDS, MOST_CHANGE};
ghost use Rattle.clone_follow.specs.declared.limits.TheConstants.{COMMIT_FIELDS};
ghost use Rattle.clone_follow.specs.Choices.{IsOneOf, MayFill, sizes, counts, lengths};
ghost use Rattle.clone_follow.specs.Spelling.{size_of, change_bytes};
ghost use Rattle.clone_follow.specs.Reading.{Gives, want, commit, current, change_in, changes_in};
ghost use Rattle.clone_follow.specs.Reading.{value_in, valued};

use crate::fault::Fault;
use crate::fields::{bytes_of, number_in, u32_of, u64_of};
use crate::limits::{CHANGE_FIELDS, COMMIT_FIELDS};
use crate::numbers::Numbers;
use crate::{FollowFrame, SentCommit};
use clone_bytes::Reader;
use clone_model::{Change, Changes, Commit, Value};
use std::alloc::Global;

pub(crate) fn want_of(reader: &mut Reader) -> Result<FollowFrame, Fault>
    ensures { Gives (λ x. (x, reader.new)) result ((want).read reader.old) }
{
    let position = u64_of(reader)?;
    Ok(FollowFrame::Want { position })
}

pub(crate) fn current_of(reader: &mut Reader) -> Result<FollowFrame, Fault>
    ensures { Gives (λ x. (x, reader.new)) result ((current).read reader.old) }
{
    let position = u64_of(reader)?;
    Ok(FollowFrame::Current { position })
}

// The payload has so many bytes.
pub(crate) fn commit_of(
    alloc: Global,
    long: usize,
    reader: &mut Reader,
) -> Result<FollowFrame, Fault>
    requires { IsOneOf (lengths 33) long }
    ensures { Gives (λ x. (x, reader.new)) result ((commit long).read reader.old) }
{
    let position = u64_of(reader)?;
    let writer = u32_of(reader)?;
    let index = u64_of(reader)?;
    let filled = long - COMMIT_FIELDS;
    let count = number_in(25, 2, Numbers::counts(filled), reader)?;
    let changes = changes_of(alloc, 27, count as usize, filled, reader)?;
    let commit = Commit {
        writer,
        index,
        changes,
    };
    match SentCommit::new(commit) {
        Some(commit) => Ok(FollowFrame::Commit { position, commit }),
        None => unreachable!(),
    }
}

// So many changes, which fill so many bytes. The first begins at this offset.
fn changes_of(
    alloc: Global,
    first: usize,
    count: usize,
    filled: usize,
    reader: &mut Reader,
) -> Result<Changes, Fault>
    requires few { count ≤ CHANGE_LIMIT }
    requires fill { MayFill count filled }
    requires near { first ≤ 27 }
    ensures gives { Gives (λ x. (x, reader.new)) result
        ((changes_in first count filled).read reader.old) }
    ensures count { IfOk result (λ x. length x ≡ count) }
{
    let mut changes = Changes::new(alloc);
    let mut at = first;
    let mut left = filled;
    for done in 0..count {
        let change = change_of(at, count - done - 1, left, reader)?;
        let read = change_len(&change);
        changes.push(change)?;
        at += read;
        left -= read;
    }
    Ok(changes)
}

// How many bytes the change is spelled with.
pub(crate) fn change_len(change: &Change) -> usize
    ensures long { result ≡ length (change_bytes change.now) }
    ensures most { result ≤ MOST_CHANGE }
{
    match &change.value {
        Some(value) => CHANGE_FIELDS + value.bytes().len(),
        None => CHANGE_FIELDS,
    }
}

// A change that `more` follow, all of which fill so many bytes.
fn change_of(at: usize, more: usize, long: usize, reader: &mut Reader) -> Result<Change, Fault>
    requires few { more < CHANGE_LIMIT }
    requires fill { MayFill (more + 1) long }
    requires near { at ≤ 27 + MOST_CHANGE * CHANGE_LIMIT }
    ensures gives { Gives (λ x. (x, reader.new)) result
        ((change_in at more long).read reader.old) }
    ensures fits { IfOk result (λ x. IsOneOf (sizes more long) (size_of x.value)) }
{
    let table = u32_of(reader)?;
    let key = u64_of(reader)?;
    let value = value_of(at + 12, more, long, reader)?;
    Ok(Change { table, key, value })
}

// The value of such a change: its kind, its length, and its bytes.
fn value_of(
    at: usize,
    more: usize,
    long: usize,
    reader: &mut Reader,
) -> Result<Option<Value>, Fault>
    requires few { more < CHANGE_LIMIT }
    requires fill { MayFill (more + 1) long }
    requires near { at ≤ 39 + MOST_CHANGE * CHANGE_LIMIT }
    ensures gives { Gives (λ x. (x, reader.new)) result ((value_in at more long).read reader.old) }
    ensures fits { IfOk result (λ x. IsOneOf (sizes more long) (size_of x)) }
{
    let kind = number_in(at, 1, Numbers::kinds(more, long), reader)?;
    let size = number_in(at + 1, 1, Numbers::sizes_of(kind, more, long), reader)?;
    let bytes = bytes_of(reader, size as usize)?;
    Ok(valued(kind, bytes))
}

// None where the kind is 0, and else the value of these bytes.
fn valued(kind: u64, bytes: &[u8]) -> Option<Value>
    requires { length bytes.now ≤ VALUE_LIMIT }
    ensures { result ≡ valued kind bytes.now }
{
    if kind == 0 {
        return None;
    }
    Value::new(bytes)
}
