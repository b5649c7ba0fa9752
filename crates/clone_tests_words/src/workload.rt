//! The values that are expected were made by `tests/pcg.py`, which has PCG from its published
//! definition and stands on nothing of this repository. It prints a transaction as a binlog does.
ghost use Rattle.std.specs.Prelude.{◌<◌};
ghost use Rattle.clone_workload.specs.declared.generator.TheConstants.{INDEX_LIMIT};

use clone_model::{Binlog, Commit, binlog_text};
use clone_workload::generated;
use std::alloc::{AllocError, Global};
use std::test::Fail;

/// `pcg.py 7 0 0 4`
const SEED_7: &str = "commit 0 0 2\n\
    3 2767 6ca57597\n\
    2 943 fe03aa69ad71da3a78685e650cf3815cd054317cca349a67314e60f6bf07bfe1ef0cdcd1e86d64bbd62103f6bc7c\n";

/// `pcg.py 11 3 17 62`
const SEED_11: &str = "commit 3 17 4\n\
    41 1385 4196587acc\n\
    3 3578 none\n\
    24 870 eb2fed1582319e899034950959c30866d36c\n\
    24 711 none\n";

/// `pcg.py 18446744073709551615 15 99999 1`
const HIGHEST_SEED: &str = "commit 15 99999 2\n\
    1 2238 74709492eb30\n\
    1 452 ac9e8043bfbbcf6a99bfbd10fe0f66301285a8a9de4608fa84752702b6215199dfeb65b30dbfc97e8d0ef2\n";

#[test]
fn transactions_of_three_seeds(rt: HostRuntime) -> Result<(), Fail> {
    let alloc = rt.alloc();
    let text = text_of(alloc, 7, 0, 0, 4)?;
    assert_eq!(rt; text.as_str(), SEED_7);
    let text = text_of(alloc, 11, 3, 17, 62)?;
    assert_eq!(rt; text.as_str(), SEED_11);
    let text = text_of(alloc, u64::MAX, 15, 99_999, 1)?;
    assert_eq!(rt; text.as_str(), HIGHEST_SEED);
    Ok(())
}

fn text_of(
    alloc: Global,
    seed: u64,
    writer: u32,
    index: u64,
    tables: u32,
) -> Result<String, AllocError>
    requires index { index < INDEX_LIMIT }
    requires tables { 0 < tables }
{
    let changes = generated(alloc, seed, writer, index, tables)?;
    let mut binlog = Binlog::new(alloc);
    binlog.push(Commit {
        writer,
        index,
        changes,
    })?;
    binlog_text(alloc, &binlog)
}
