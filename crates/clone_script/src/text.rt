ghost use Rattle.std.specs.Prelude.{◌≡◌, ◌++◌, IfOk, OnOk, codes};
ghost use Rattle.std.specs.Fmt.{decimal};
ghost use Rattle.std.specs.String.{string_bytes};
ghost use Rattle.clone_model.specs.Texts.{value_text};
ghost use Rattle.clone_script.specs.Lines as lines;

use crate::Line;
use clone_model::{ScriptValue, TableNumber, push_value};
use std::alloc::{AllocError, Global};
use std::fmt::Write;

/// The text of a line of a script.
pub fn line_text(alloc: Global, line: &Line) -> Result<String, AllocError>
    ensures { IfOk result (λ text. string_bytes text ≡ lines.line_text line.now) }
{
    let mut text = String::new(alloc);
    push_line(&mut text, line)?;
    Ok(text)
}

fn push_line(text: &mut String, line: &Line) -> Result<(), AllocError>
    ensures { OnOk result
        (string_bytes text.new ≡ string_bytes text.old ++ lines.line_text line.now) }
{
    match line {
        Line::Create { table, buckets } => write!(text, "create {} {}", table.get(), buckets.get()),
        Line::Drop { table } => write!(text, "drop {}", table.get()),
        Line::Begin { writer } => write!(text, "begin {writer}"),
        Line::Put {
            trx,
            table,
            key,
            value,
        } => push_row_value(text, "put ", *trx, *table, *key, value),
        Line::Delete { trx, table, key } => write!(text, "del {trx} {} {key}", table.get()),
        Line::Get { trx, table, key } => write!(text, "get {trx} {} {key}", table.get()),
        Line::Undo { trx } => write!(text, "undo {trx}"),
        Line::Commit { trx } => write!(text, "commit {trx}"),
        Line::Set {
            writer,
            table,
            key,
            value,
        } => push_row_value(text, "set ", *writer, *table, *key, value),
        Line::Flush { space, page } => write!(text, "flush {space} {page}"),
        Line::Half { space, page } => write!(text, "half {space} {page}"),
        Line::Land { space, page } => write!(text, "land {space} {page}"),
        Line::Clean => text.push_str("clean"),
        Line::Checkpoint => text.push_str("checkpoint"),
        Line::Lsn => text.push_str("lsn"),
        Line::Tear { byte } => write!(text, "tear {byte}"),
        Line::FailDonor { call } => write!(text, "fail donor {call}"),
        Line::FailRecipient { call } => write!(text, "fail recipient {call}"),
        Line::Start => text.push_str("start"),
        Line::Task { task } => write!(text, "task {task}"),
        Line::Serve { connection } => write!(text, "serve {connection}"),
        Line::Cut {
            connection,
            to_donor,
            to_task,
        } => write!(text, "cut {connection} {to_donor} {to_task}"),
        Line::Status => text.push_str("status"),
        Line::Raw { bytes } => {
            text.push_str("raw ")?;
            push_value(text, bytes.bytes())
        }
        Line::Feed { connection, bytes } => {
            write!(text, "feed {connection} ")?;
            push_value(text, bytes.bytes())
        }
        Line::Abandon => text.push_str("abandon"),
        Line::Advance => text.push_str("advance"),
        Line::Finish => text.push_str("finish"),
        Line::Look => text.push_str("look"),
        Line::Archive { bytes } => write!(text, "archive {bytes}"),
        Line::Follow => text.push_str("follow"),
        Line::Lose => text.push_str("lose"),
        Line::Repeat { sent } => write!(text, "repeat {sent}"),
        Line::Replica => text.push_str("replica"),
        Line::Clone => text.push_str("clone"),
        Line::Rows => text.push_str("rows"),
    }
}

fn push_row_value(
    text: &mut String,
    word: &str,
    number: u32,
    table: TableNumber,
    key: u64,
    value: &ScriptValue,
) -> Result<(), AllocError>
    ensures { OnOk result (string_bytes text.new ≡ string_bytes text.old
        ++ (word.now ++ decimal number ++ codes " " ++ decimal table ++ codes " " ++ decimal key
        ++ codes " " ++ value_text value.now)) }
{
    text.push_str(word)?;
    write!(text, "{number} {} {key} ", table.get())?;
    push_value(text, value.bytes())
}
