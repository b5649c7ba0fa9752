ghost use Rattle.std.specs.Prelude.{IsTrue};
ghost use Rattle.std.specs.List.{AllByRecursion};
ghost use Rattle.clone_follow.specs.Binlog.{IsShort};

use clone_follow::*;
use clone_model::{Binlog, Change, Changes, Commit, Value};
use std::alloc::{AllocError, Global};
use std::test::*;

fn value(byte: u8) -> Result<Value, AllocError> {
    Value::new(&[byte]).ok_or(AllocError)
}

// The row of table 1 with this key gets the value, or is removed.
fn commit(alloc: Global, index: u64, key: u64, byte: Option<u8>) -> Result<Commit, AllocError> {
    let value = match byte {
        Some(byte) => Some(value(byte)?),
        None => None,
    };
    let change = Change {
        table: 1,
        key,
        value,
    };
    Ok(Commit {
        writer: 0,
        index,
        changes: Changes::with(alloc, change)?,
    })
}

// Row 1 gets aa, row 2 bb and then cc, and row 1 is removed.
fn binlog(alloc: Global) -> Result<Binlog, AllocError> {
    let mut binlog = Binlog::new(alloc);
    binlog.push(commit(alloc, 0, 1, Some(0xAA))?)?;
    binlog.push(commit(alloc, 1, 2, Some(0xBB))?)?;
    binlog.push(commit(alloc, 2, 2, Some(0xCC))?)?;
    binlog.push(commit(alloc, 3, 1, None)?)?;
    Ok(binlog)
}

fn opened(alloc: Global, position: u64) -> Result<Follower, AllocError> {
    let rows = Vec::from_array(alloc, [(1, 1, value(0xAA)?)])?;
    Follower::open(alloc, &rows, position)
}

// Whether each commit has at most 160 changes.
fn are_short(commits: &[Commit]) -> bool
    ensures { IsTrue result → AllByRecursion IsShort commits.now }
{
    for commit in commits {
        if commit.changes.len() > 160 {
            return false;
        }
    }
    true
}

// The donor's answer to a WANT of this position, where its binlog has so many commits.
fn answered(alloc: Global, length: usize, want: u64) -> Result<FollowFrame, AllocError> {
    let binlog = binlog(alloc)?;
    let commits = binlog.as_slice().get(..length).ok_or(AllocError)?;
    if !are_short(commits) {
        return Err(AllocError);
    }
    answer(alloc, commits, want)
}

// Whether the follower has these keys and values in table 1, and this position.
fn has(
    alloc: Global,
    follower: &Follower,
    rows: &[(u64, u8)],
    position: u64,
) -> Result<bool, AllocError> {
    let held = follower.rows(alloc)?;
    if held.len() != rows.len() || follower.want() != position {
        return Ok(false);
    }
    for ((table, key, value), row) in held.iter().zip(rows) {
        if *table != 1 || *key != row.0 || value.bytes() != [row.1].as_slice() {
            return Ok(false);
        }
    }
    Ok(true)
}

type Due = Result<FollowTook, FollowRefusal>;

// Whether the follower takes the donor's answer to a WANT of this position so. The donor's binlog
// has so many commits.
fn hears(
    alloc: Global,
    follower: &mut Follower,
    length: usize,
    want: u64,
    due: Due,
) -> Result<bool, AllocError> {
    let frame = answered(alloc, length, want)?;
    Ok(follower.take(&frame) == due)
}

// A clone at position 1 is current; the answer with commit 2 is lost, comes again and is applied,
// and a repetition is ignored.
#[test]
fn follows(rt: HostRuntime) -> Result<(), Fail> {
    let alloc = rt.alloc();
    let mut follower = opened(alloc, 1)?;
    assert!(rt;
        hears(
            alloc,
            &mut follower,
            1,
            1,
            Ok(FollowTook::Current { position: 1 })
        )?
    );
    assert!(rt; has(alloc, &follower, &[(1, 0xAA)], 1)?);
    assert!(rt;
        hears(
            alloc,
            &mut follower,
            2,
            1,
            Ok(FollowTook::Applied { position: 2 })
        )?
    );
    assert!(rt;
        hears(
            alloc,
            &mut follower,
            2,
            1,
            Ok(FollowTook::Ignored { position: 2 })
        )?
    );
    assert!(rt; has(alloc, &follower, &[(1, 0xAA), (2, 0xBB)], 2)?);
    Ok(())
}

// To the end of the binlog: a value that was written over, and a row that was removed.
#[test]
fn follows_to_the_end(rt: HostRuntime) -> Result<(), Fail> {
    let alloc = rt.alloc();
    let mut follower = Follower::open(alloc, &[], 0)?;
    for want in 0..4 {
        let due = FollowTook::Applied { position: want + 1 };
        assert!(rt; hears(alloc, &mut follower, 4, want, Ok(due))?);
    }
    assert!(rt;
        hears(
            alloc,
            &mut follower,
            4,
            4,
            Ok(FollowTook::Current { position: 4 })
        )?
    );
    assert!(rt; has(alloc, &follower, &[(2, 0xCC)], 4)?);
    Ok(())
}

// Whether the follower refuses a CURRENT of this position so.
fn refuses_current(follower: &mut Follower, position: u64, due: FollowRefusal) -> bool {
    follower.take(&FollowFrame::Current { position }) == Err(due)
}

// After a refusal all is as before.
#[test]
fn refuses(rt: HostRuntime) -> Result<(), Fail> {
    let alloc = rt.alloc();
    let mut follower = opened(alloc, 1)?;
    let ahead = FollowRefusal::Ahead { have: 1, got: 3 };
    assert!(rt; hears(alloc, &mut follower, 4, 2, Err(ahead))?);
    assert!(rt; refuses_current(&mut follower, 3, ahead));
    assert!(rt; refuses_current(&mut follower, 0, FollowRefusal::Behind { have: 1, got: 0 }));
    let want = FollowFrame::Want { position: 1 };
    assert!(rt; follower.take(&want) == Err(FollowRefusal::Unexpected));
    assert!(rt; has(alloc, &follower, &[(1, 0xAA)], 1)?);
    Ok(())
}

// At the greatest position there is no next one.
#[test]
fn greatest_position(rt: HostRuntime) -> Result<(), Fail> {
    let alloc = rt.alloc();
    let most = u64::MAX;
    let mut follower = opened(alloc, most)?;
    assert!(rt;
        hears(
            alloc,
            &mut follower,
            4,
            1,
            Ok(FollowTook::Ignored { position: most })
        )?
    );
    let behind = FollowRefusal::Behind { have: most, got: 4 };
    assert!(rt; hears(alloc, &mut follower, 4, most, Err(behind))?);
    assert!(rt; has(alloc, &follower, &[(1, 0xAA)], most)?);
    Ok(())
}

// None is at 0, nor above the length.
#[test]
fn commits_by_position(rt: HostRuntime) -> Result<(), Fail> {
    let alloc = rt.alloc();
    let binlog = binlog(alloc)?;
    for position in 0..7_u64 {
        let commit = commit_at(alloc, binlog.as_slice(), position)?;
        match commit {
            Some(commit) => assert_eq!(rt; commit.index.wrapping_add(1), position),
            None => assert!(rt; position == 0 || position > 4),
        }
    }
    Ok(())
}

// The last of two values of a row counts.
#[test]
fn opens(rt: HostRuntime) -> Result<(), Fail> {
    let alloc = rt.alloc();
    let rows = Vec::from_array(
        alloc,
        [(1, 5, value(1)?), (1, 3, value(2)?), (1, 5, value(4)?)],
    )?;
    let follower = Follower::open(alloc, &rows, 7)?;
    assert!(rt; has(alloc, &follower, &[(3, 2), (5, 4)], 7)?);
    Ok(())
}
