//! The expected texts were written by hand.
use clone_model::{Binlog, Changes, Commit, Value};
use clone_summary::{report, summary};
use std::alloc::{AllocError, Global};
use std::test::Fail;

const COMMITS: [(u32, u64); 5] = [(0, 0), (3, 0), (0, 1), (1, 0), (0, 2)];

/// Commits without changes, which a summary doesn't look at.
fn binlog_of(alloc: Global, commits: &[(u32, u64)]) -> Result<Binlog, AllocError> {
    let mut binlog = Binlog::new(alloc);
    for &(writer, index) in commits {
        binlog.push(Commit {
            writer,
            index,
            changes: Changes::new(alloc),
        })?;
    }
    Ok(binlog)
}

#[test]
fn the_commits_of_each_writer_and_the_floor(rt: HostRuntime) -> Result<(), Fail> {
    let alloc = rt.alloc();
    let binlog = binlog_of(alloc, &COMMITS)?;
    let text = summary(alloc, u64::MAX, 3, 7, &binlog, 4, 4)?;
    assert_eq!(rt;
        text.as_str(),
        "seed 18446744073709551615 writers 3 transactions 7\n\
        writer 0 commits 3\n\
        writer 1 commits 1\n\
        writer 2 commits 0\n\
        clone complete\n\
        floor met\n"
    );
    let text = summary(alloc, 0, 1, 0, &Binlog::new(alloc), 4, 5)?;
    assert_eq!(rt;
        text.as_str(),
        "seed 0 writers 1 transactions 0\nwriter 0 commits 0\nclone complete\n"
    );
    Ok(())
}

#[test]
fn a_report(rt: HostRuntime) -> Result<(), Fail> {
    let alloc = rt.alloc();
    let first = Value::new(b"hi").ok_or("at most 64 bytes")?;
    let second = Value::new(b"").ok_or("at most 64 bytes")?;
    let rows = vec![in alloc; (1, 10, first), (2, 3, second)]?;
    assert_eq!(rt;
        report(alloc, 8_192, 5, 4, &rows)?.as_str(),
        "lsn 8192 position 5 floor 4\n1 10 6869\n2 3 -\nrows 2\n"
    );
    assert_eq!(rt;
        report(alloc, 0, 0, 0, &[])?.as_str(),
        "lsn 0 position 0 floor 0\nrows 0\n"
    );
    Ok(())
}
