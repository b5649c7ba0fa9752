ghost use Rattle.std.specs.Prelude.{◌≡◌, ◌++◌, IfOk, OnOk};
ghost use Rattle.std.specs.String.{string_bytes};
ghost use Rattle.clone_summary.specs.Summary.{counted_text, report_text, summary_text};

use crate::counts::commit_counts;
use clone_dump::rows_shown;
use clone_model::{Binlog, Value};
use std::alloc::{AllocError, Global};
use std::fmt::Write;

/// The summary of a run with this binlog, whose clone is complete at a position: what was asked
/// for, how many commits each writer has, and whether the clone has as many as the floor.
pub fn summary(
    alloc: Global,
    seed: u64,
    writers: u32,
    transactions: u64,
    binlog: &Binlog,
    position: u64,
    floor: u64,
) -> Result<String, AllocError>
    ensures { IfOk result (λ text. string_bytes text
        ≡ summary_text seed writers transactions binlog.now.commits position floor) }
{
    let counts = commit_counts(alloc, writers, binlog)?;
    let mut text = format!(in alloc;
        "seed {seed} writers {writers} transactions {transactions}\n"
    )?;
    push_writers(&mut text, &counts)?;
    text.push_str("clone complete\n")?;
    if floor <= position {
        text.push_str("floor met\n")?;
    }
    Ok(text)
}

/// The report on a clone: at which LSN and position it is complete, the floor, and then its rows
/// and their number.
pub fn report(
    alloc: Global,
    lsn: u64,
    position: u64,
    floor: u64,
    rows: &[(u32, u64, Value)],
) -> Result<String, AllocError>
    ensures { IfOk result
        (λ text. string_bytes text ≡ report_text lsn position floor rows.now) }
{
    let rows = rows_shown(alloc, rows)?;
    let mut text = format!(in alloc; "lsn {lsn} position {position} floor {floor}\n")?;
    text.push_str(rows.as_str())?;
    text.push('\n')?;
    Ok(text)
}

// A line for each writer, the first of which is 0, by the counts of their commits.
fn push_writers(text: &mut String, counts: &[usize]) -> Result<(), AllocError>
    ensures { OnOk result (string_bytes text.new
        ≡ string_bytes text.old ++ counted_text counts.now) }
{
    for (writer, count) in counts.iter().enumerate() {
        writeln!(text, "writer {writer} commits {count}")?;
    }
    Ok(())
}
