ghost use Rattle.std.specs.Prelude.{◌≡◌, ◌++◌, IfOk, OnOk};
ghost use Rattle.std.specs.String.{string_bytes};
ghost use Rattle.clone_model.specs.Texts as texts;

use crate::{Binlog, Change, Commit, Value};
use std::alloc::{AllocError, Global};
use std::fmt::Write;

/// The rows, each on a line: table, key and value.
pub fn rows_text(alloc: Global, rows: &[(u32, u64, Value)]) -> Result<String, AllocError>
    ensures { IfOk result (λ text. string_bytes text ≡ texts.rows_text rows.now) }
{
    let mut text = String::new(alloc);
    for row in rows {
        push_row(&mut text, row)?;
    }
    Ok(text)
}

/// The commits in their order, each with its changes.
pub fn binlog_text(alloc: Global, binlog: &Binlog) -> Result<String, AllocError>
    ensures { IfOk result (λ text. string_bytes text ≡ texts.binlog_text binlog.now.commits) }
{
    let mut text = String::new(alloc);
    for commit in binlog.as_slice() {
        push_commit(&mut text, commit)?;
    }
    Ok(text)
}

fn push_row(text: &mut String, row: &(u32, u64, Value)) -> Result<(), AllocError>
    ensures { OnOk result
        (string_bytes text.new ≡ string_bytes text.old ++ texts.ended (texts.row_text row.now)) }
{
    let (table, key, value) = row;
    write!(text, "{table} {key} ")?;
    push_value(text, value.bytes())?;
    text.push('\n')
}

fn push_commit(text: &mut String, commit: &Commit) -> Result<(), AllocError>
    ensures { OnOk result
        (string_bytes text.new ≡ string_bytes text.old ++ texts.commit_text commit.now) }
{
    let changes = commit.changes.as_slice();
    let Commit { writer, index, .. } = commit;
    writeln!(text, "commit {writer} {index} {}", changes.len())?;
    for change in changes {
        push_change(text, change)?;
    }
    Ok(())
}

fn push_change(text: &mut String, change: &Change) -> Result<(), AllocError>
    ensures { OnOk result (string_bytes text.new
        ≡ string_bytes text.old ++ texts.ended (texts.change_text change.now)) }
{
    let Change { table, key, value } = change;
    write!(text, "{table} {key} ")?;
    match value {
        Some(value) => push_value(text, value.bytes())?,
        None => text.push_str("none")?,
    }
    text.push('\n')
}

/// Adds the text of a value with these bytes.
pub fn push_value(text: &mut String, bytes: &[u8]) -> Result<(), AllocError>
    ensures { OnOk result
        (string_bytes text.new ≡ string_bytes text.old ++ texts.value_text bytes.now) }
{
    if bytes.is_empty() {
        return text.push('-');
    }
    push_hex(text, bytes)
}

fn push_hex(text: &mut String, bytes: &[u8]) -> Result<(), AllocError>
    ensures { OnOk result (string_bytes text.new ≡ string_bytes text.old ++ texts.hex bytes.now) }
{
    for byte in bytes {
        write!(text, "{byte:02x}")?;
    }
    Ok(())
}
