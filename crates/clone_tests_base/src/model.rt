use clone_model::{ReadRefusal, binlog_text, fold, read_binlog, rows_text};

/// Two commits. Of the second, the fields have their greatest values, also in length.
const BINLOG: &str = "\
commit 0 0 1
1 7 6869
commit 4294967295 18446744073709551615 3
0 18446744073709551615 none
4294967295 0 -
1 7 000102030405060708090a0b0c0d0e0f101112131415161718191a1b1c1d1e1f202122232425262728292a2b2c2d2e2f303132333435363738393a3b3c3d3e3f
";

/// Texts with the number of their first bad or missing line.
const BAD: [(&str, u64); 12] = [
    ("commit 0 0 0", 1),
    ("1 7 6869\n", 1),
    ("commit 0 0 0 \n", 1),
    ("commit 4294967296 0 0\n", 1),
    ("commit 0 18446744073709551616 0\n", 1),
    ("commit 0 0 18446744073709551615\n", 2),
    ("commit 0 0 1\ncommit 0 1 0\n", 2),
    ("commit 0 0 1\n4294967296 7 -\n", 2),
    ("commit 0 0 1\n1 7 None\n", 2),
    (
        "commit 0 0 1\n1 7 000102030405060708090a0b0c0d0e0f101112131415161718191a1b1c1d1e1f202122232425262728292a2b2c2d2e2f303132333435363738393a3b3c3d3e3f40\n",
        2,
    ),
    ("commit 0 0 1\n1 7 6869\n1 8 6869\n", 3),
    ("commit 0 0 2\n1 7 6869\n", 3),
];

#[test]
fn a_binlog_read_back(rt: HostRuntime) -> Result<(), ReadRefusal> {
    let binlog = read_binlog(rt.alloc(), BINLOG.as_bytes())?;
    assert!(rt; binlog.len() == 2);
    assert!(rt; binlog_text(rt.alloc(), &binlog)?.as_str() == BINLOG);
    Ok(())
}

#[test]
fn bad_binlogs(rt: HostRuntime) {
    for (text, number) in BAD {
        let read = read_binlog(rt.alloc(), text.as_bytes());
        assert!(rt;
            matches!(read, Err(ReadRefusal::BadLine { line }) if line == number),
            "{text}"
        );
    }
}

// Rows are set, set again and removed, and are listed by table and key.
#[test]
fn what_a_history_leaves(rt: HostRuntime) -> Result<(), ReadRefusal> {
    let history = b"commit 0 0 3\n2 5 -\n1 10 00090aff\n1 7 61\n\
        commit 1 0 2\n1 7 63\n1 8 62\ncommit 0 1 1\n1 8 none\n";
    let binlog = read_binlog(rt.alloc(), history)?;
    let tables = fold(rt.alloc(), binlog.as_slice())?;
    let text = rows_text(rt.alloc(), &tables.rows(rt.alloc())?)?;
    assert!(rt; text.as_str() == "1 7 63\n1 10 00090aff\n2 5 -\n");
    Ok(())
}
