//! What writers commit, from the generator of their workload and the fold of commits alone.
ghost use Rattle.std.specs.Prelude.{◌<◌, ◌≤◌};
ghost use Rattle.clone_workload.specs.declared.generator.TheConstants.{INDEX_LIMIT};

use clone_donor::Donor;
use clone_memdisk::MemDisk;
use clone_model::{Change, Commit, Tables, fold};
use clone_workload::generated;
use std::alloc::{AllocError, Global};
use std::test::Fail;

/// A stream of transactions.
#[derive(Clone, Copy)]
pub struct Stream {
    pub seed: u64,
    pub writer: u32,
    pub tables: u32,
    ghost tables_there: { 0 < tables },
}

// The transaction of this index, or none where it is out of range.
fn transaction(alloc: Global, stream: Stream, index: u64) -> Result<Option<Commit>, AllocError> {
    if index >= clone_workload::INDEX_LIMIT {
        return Ok(None);
    }
    let changes = generated(alloc, stream.seed, stream.writer, index, stream.tables)?;
    Ok(Some(Commit {
        writer: stream.writer,
        index,
        changes,
    }))
}

// The first transactions, so many.
fn front(alloc: Global, stream: Stream, count: u64) -> Result<Vec<Commit>, Fail> {
    let mut front = Vec::new(alloc);
    for index in 0..count {
        front.push(transaction(alloc, stream, index)?.ok_or("no such index")?)?;
    }
    Ok(front)
}

// How many commits of the stream's writer there are, if these are the first of the stream.
fn written(alloc: Global, stream: Stream, binlog: &[Commit]) -> Result<Option<u64>, AllocError> {
    let mut index: u64 = 0;
    for commit in binlog {
        if commit.writer == stream.writer {
            match transaction(alloc, stream, index)? {
                Some(expected) if is_same(commit, &expected) => index = index.saturating_add(1),
                _ => return Ok(None),
            }
        }
    }
    Ok(Some(index))
}

/// How many transactions of the stream were committed, if these are its first, and whether the
/// donor has the rows of so many.
pub fn found(
    alloc: Global,
    stream: Stream,
    donor: &mut Donor<MemDisk>,
) -> Result<(Option<u64>, bool), Fail> {
    let count = written(alloc, stream, donor.binlog().as_slice())?;
    let expected = front(alloc, stream, count.unwrap_or(0))?;
    let rows = has_rows(alloc, donor, &expected)?;
    Ok((count, rows))
}

/// The same of two streams, whose transactions are committed in the order of the binlog.
pub fn found_of(
    alloc: Global,
    streams: [Stream; 2],
    donor: &mut Donor<MemDisk>,
) -> Result<([Option<u64>; 2], bool), Fail> {
    let [one, two] = streams;
    let binlog = donor.binlog().as_slice();
    let counts = [written(alloc, one, binlog)?, written(alloc, two, binlog)?];
    let expected = expected_of(alloc, &streams, binlog)?;
    let rows = has_rows(alloc, donor, &expected)?;
    Ok((counts, rows))
}

// The commits in the order of a binlog, each as the stream of its writer has it.
fn expected_of(alloc: Global, streams: &[Stream], binlog: &[Commit]) -> Result<Vec<Commit>, Fail> {
    let mut expected = Vec::new(alloc);
    for commit in binlog {
        let stream = streams.iter().find(|stream| stream.writer == commit.writer);
        let stream = stream.ok_or("a commit of nobody")?;
        expected.push(transaction(alloc, *stream, commit.index)?.ok_or("no such index")?)?;
    }
    Ok(expected)
}

fn is_same(commit: &Commit, expected: &Commit) -> bool {
    commit.index == expected.index && commit.changes.as_slice() == expected.changes.as_slice()
}

// Whether the donor has the rows that these commits make, of all that they change.
fn has_rows(alloc: Global, donor: &mut Donor<MemDisk>, commits: &[Commit]) -> Result<bool, Fail> {
    let tables = fold(alloc, commits)?;
    let trx = donor.begin(alloc, 99, 0)?;
    for commit in commits {
        if !has_changed(donor, trx, &tables, commit.changes.as_slice())? {
            return Ok(false);
        }
    }
    Ok(true)
}

fn has_changed(
    donor: &mut Donor<MemDisk>,
    trx: u32,
    tables: &Tables,
    changes: &[Change],
) -> Result<bool, Fail> {
    for change in changes {
        if donor.get(trx, change.table, change.key)? != tables.get(change.table, change.key) {
            return Ok(false);
        }
    }
    Ok(true)
}
