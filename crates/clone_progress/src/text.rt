ghost use Rattle.std.specs.Prelude.{◌≡◌, ◌++◌, IfOk, OnOk};
ghost use Rattle.std.specs.String.{string_bytes};
ghost use Rattle.clone_progress.specs.Texts as texts;

use crate::{CloneStatus, CopyState, Progress};
use std::alloc::{AllocError, Global};
use std::fmt::Write;

/// Where the clone and each of its seven stages stand, each on a line.
pub fn progress_text(alloc: Global, progress: &Progress) -> Result<String, AllocError>
    ensures { IfOk result (λ text. string_bytes text ≡ texts.progress_text progress.now) }
{
    let copied = progress.copied;
    let mut text = String::new(alloc);
    push_status(&mut text, progress.status)?;
    push_stage(&mut text, "DROP DATA", is_begun(progress.status))?;
    push_copy(&mut text, "FILE COPY", copied.file_copy())?;
    push_copy(&mut text, "PAGE COPY", copied.page_copy())?;
    push_copy(&mut text, "REDO COPY", copied.redo_copy())?;
    push_stage(&mut text, "FILE SYNC", progress.synced)?;
    push_stage(&mut text, "RESTART", progress.recovered)?;
    push_stage(&mut text, "RECOVERY", progress.recovered)?;
    Ok(text)
}

fn is_begun(status: CloneStatus) -> bool
    ensures { result ≡ texts.is_begun status }
{
    !matches!(status, CloneStatus::NotStarted)
}

fn push_status(text: &mut String, status: CloneStatus) -> Result<(), AllocError>
    ensures { OnOk result
        (string_bytes text.new ≡ string_bytes text.old ++ texts.status_line status) }
{
    match status {
        CloneStatus::NotStarted => text.push_str("status Not Started\n"),
        CloneStatus::InProgress => text.push_str("status In Progress\n"),
        CloneStatus::Failed => text.push_str("status Failed\n"),
        CloneStatus::Completed { lsn, position } => push_completed(text, lsn, position),
    }
}

fn push_completed(text: &mut String, lsn: u64, position: u64) -> Result<(), AllocError>
    ensures { OnOk result
        (string_bytes text.new ≡ string_bytes text.old ++ texts.completed_line lsn position) }
{
    writeln!(text, "status Completed lsn {lsn} position {position}")?;
    Ok(())
}

fn push_stage(text: &mut String, name: &str, done: bool) -> Result<(), AllocError>
    ensures { OnOk result
        (string_bytes text.new ≡ string_bytes text.old ++ texts.stage_line name.now done) }
{
    if done {
        writeln!(text, "{name} Completed")
    } else {
        writeln!(text, "{name} Not Started")
    }
}

fn push_copy(text: &mut String, name: &str, state: CopyState) -> Result<(), AllocError>
    ensures { OnOk result
        (string_bytes text.new ≡ string_bytes text.old ++ texts.copy_line name.now state) }
{
    match state {
        CopyState::NotStarted => push_stage(text, name, false),
        CopyState::InProgress { finished, chunks } => push_counts(text, name, finished, chunks),
        CopyState::Completed { chunks } => writeln!(text, "{name} Completed {chunks}/{chunks}"),
    }
}

fn push_counts(text: &mut String, name: &str, finished: u32, chunks: u32) -> Result<(), AllocError>
    ensures { OnOk result (string_bytes text.new ≡
        string_bytes text.old ++ texts.counts_line name.now finished chunks) }
{
    writeln!(text, "{name} In Progress {finished}/{chunks}")?;
    Ok(())
}
