//! What a donor says of its binlog to a follower. A commit's position is its number, from 1.
ghost use Rattle.std.specs.Prelude.{◌≡◌, ◌≤◌, length, IfOk};
ghost use Rattle.std.specs.List.{AllByRecursion};
ghost use Rattle.clone_follow.specs.Binlog.{commit_at, answer, IsShort};

use crate::{FollowFrame, SentCommit};
use clone_model::{Change, Changes, Commit, Value};
use std::alloc::{AllocError, Global};

/// The commit at this position of the binlog. None is at 0, nor above the binlog's length.
pub fn commit_at(
    alloc: Global,
    binlog: &[Commit],
    position: u64,
) -> Result<Option<Commit>, AllocError>
    ensures { IfOk result (λ commit. commit ≡ commit_at binlog.now position) }
{
    if position == 0 || position > binlog.len() as u64 {
        return Ok(None);
    }
    let commit = copied_commit(alloc, &binlog[(position - 1) as usize])?;
    Ok(Some(commit))
}

/// What a donor with this binlog, whose commits have at most 160 changes each, answers to a WANT of
/// this position: the next commit, or that there is none.
pub fn answer(alloc: Global, binlog: &[Commit], want: u64) -> Result<FollowFrame, AllocError>
    requires few { AllByRecursion IsShort binlog.now }
    ensures { IfOk result (λ frame. frame ≡ answer binlog.now want) }
{
    let last = binlog.len() as u64;
    if last <= want {
        return Ok(FollowFrame::Current { position: last });
    }
    let commit = copied_commit(alloc, &binlog[want as usize])?;
    match SentCommit::new(commit) {
        Some(commit) => Ok(FollowFrame::Commit {
            position: want + 1,
            commit,
        }),
        None => unreachable!(),
    }
}

fn copied_commit(alloc: Global, commit: &Commit) -> Result<Commit, AllocError>
    ensures { IfOk result (λ copy. copy ≡ commit.now) }
{
    let changes = copied_changes(alloc, commit.changes.as_slice())?;
    Ok(Commit {
        writer: commit.writer,
        index: commit.index,
        changes,
    })
}

fn copied_changes(alloc: Global, from: &[Change]) -> Result<Changes, AllocError>
    ensures { IfOk result (λ changes. changes ≡ from.now) }
{
    let mut changes = Changes::new(alloc);
    for change in from {
        changes.push(copied_change(change))?;
    }
    Ok(changes)
}

fn copied_change(change: &Change) -> Change
    ensures { result ≡ change.now }
{
    Change {
        table: change.table,
        key: change.key,
        value: copied_value(&change.value),
    }
}

fn copied_value(value: &Option<Value>) -> Option<Value>
    ensures { result ≡ value.now }
{
    match value {
        Some(value) => Some(value.copied()),
        None => None,
    }
}
