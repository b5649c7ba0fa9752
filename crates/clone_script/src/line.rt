ghost use Rattle.std.specs.Prelude.{◌++◌, IfOk, codes};
ghost use Rattle.clone_script.specs.Lines.{line_text};
ghost use Rattle.clone_script.specs.Reading.{Parses, ParsesLine, IsOfConnection, IsOfFollower, IsOfDisk, IsBare};

use crate::Line;
use crate::fields::{
    bucket_count, byte_of, call_of, page_number, read_row, read_row_with_value, small_number,
    some_bytes, space_number, table_number, table_of, task_number,
};
use clone_model::{as_u32, leading_number, number_of};
use std::alloc::{AllocError, Global};

/// The line that has this text.
pub fn parse_line(alloc: Global, text: &[u8]) -> Result<Option<Line>, AllocError>
    ensures { IfOk result (λ read. ParsesLine text.now read) }
{
    if let Some(fields) = text.strip_prefix(b"create ") {
        return Ok(create(fields));
    }
    if let Some(field) = text.strip_prefix(b"drop ") {
        return Ok(drop_table(field));
    }
    if let Some(field) = text.strip_prefix(b"begin ") {
        return Ok(begin(field));
    }
    if let Some(fields) = text.strip_prefix(b"put ") {
        return put(alloc, fields);
    }
    if let Some(fields) = text.strip_prefix(b"del ") {
        return Ok(delete(fields));
    }
    if let Some(fields) = text.strip_prefix(b"get ") {
        return Ok(get(fields));
    }
    if let Some(field) = text.strip_prefix(b"undo ") {
        return Ok(undo(field));
    }
    if let Some(field) = text.strip_prefix(b"commit ") {
        return Ok(commit(field));
    }
    if let Some(fields) = text.strip_prefix(b"set ") {
        return set(alloc, fields);
    }
    Ok(disk_line(text))
}

/// The line of the disk, of the log or of a clone that has this text, or the one without fields.
fn disk_line(text: &[u8]) -> Option<Line>
    ensures { Parses IsOfDisk line_text text.now result }
{
    if let Some(fields) = text.strip_prefix(b"flush ") {
        return flush(fields);
    }
    if let Some(fields) = text.strip_prefix(b"half ") {
        return half(fields);
    }
    if let Some(fields) = text.strip_prefix(b"land ") {
        return land(fields);
    }
    if let Some(field) = text.strip_prefix(b"tear ") {
        return tear(field);
    }
    if let Some(field) = text.strip_prefix(b"fail donor ") {
        return fail_donor(field);
    }
    if let Some(field) = text.strip_prefix(b"fail recipient ") {
        return fail_recipient(field);
    }
    if let Some(field) = text.strip_prefix(b"archive ") {
        return archive(field);
    }
    connection_line(text)
}

/// The line of a connection that has this text, or that of a follower, or the one without fields.
fn connection_line(text: &[u8]) -> Option<Line>
    ensures { Parses IsOfConnection line_text text.now result }
{
    if let Some(field) = text.strip_prefix(b"task ") {
        return task(field);
    }
    if let Some(field) = text.strip_prefix(b"serve ") {
        return serve(field);
    }
    if let Some(fields) = text.strip_prefix(b"cut ") {
        return cut(fields);
    }
    if let Some(field) = text.strip_prefix(b"raw ") {
        return raw(field);
    }
    if let Some(fields) = text.strip_prefix(b"feed ") {
        return feed(fields);
    }
    follower_line(text)
}

/// The line of a follower that has this text, or another one without fields.
fn follower_line(text: &[u8]) -> Option<Line>
    ensures { Parses IsOfFollower line_text text.now result }
{
    if let Some(field) = text.strip_prefix(b"repeat ") {
        return repeat(field);
    }
    if text == b"follow".as_slice() {
        return Some(Line::Follow);
    }
    if text == b"lose".as_slice() {
        return Some(Line::Lose);
    }
    if text == b"replica".as_slice() {
        return Some(Line::Replica);
    }
    bare_line(text)
}

/// The line without fields that has this text.
fn bare_line(text: &[u8]) -> Option<Line>
    ensures { Parses IsBare line_text text.now result }
{
    if text == b"clean".as_slice() {
        return Some(Line::Clean);
    }
    if text == b"checkpoint".as_slice() {
        return Some(Line::Checkpoint);
    }
    if text == b"lsn".as_slice() {
        return Some(Line::Lsn);
    }
    if text == b"start".as_slice() {
        return Some(Line::Start);
    }
    if text == b"advance".as_slice() {
        return Some(Line::Advance);
    }
    if text == b"finish".as_slice() {
        return Some(Line::Finish);
    }
    if text == b"look".as_slice() {
        return Some(Line::Look);
    }
    if text == b"status".as_slice() {
        return Some(Line::Status);
    }
    if text == b"abandon".as_slice() {
        return Some(Line::Abandon);
    }
    if text == b"clone".as_slice() {
        return Some(Line::Clone);
    }
    if text == b"rows".as_slice() {
        return Some(Line::Rows);
    }
    None
}

/// The `create` with these fields: a table and a number of buckets.
fn create(fields: &[u8]) -> Option<Line>
    ensures { ParsesLine (codes "create " ++ fields.now) result }
{
    let (table, buckets) = leading_number(fields)?;
    Some(Line::Create {
        table: table_number(table)?,
        buckets: bucket_count(number_of(buckets)?)?,
    })
}

/// The `drop` with this field: a table.
fn drop_table(field: &[u8]) -> Option<Line>
    ensures { ParsesLine (codes "drop " ++ field.now) result }
{
    let table = table_of(field)?;
    Some(Line::Drop { table })
}

/// The `begin` with this field: a writer.
fn begin(field: &[u8]) -> Option<Line>
    ensures { ParsesLine (codes "begin " ++ field.now) result }
{
    let writer = small_number(field)?;
    Some(Line::Begin { writer })
}

/// The `put` with these fields: a transaction, a table, a key and a value.
fn put(alloc: Global, fields: &[u8]) -> Result<Option<Line>, AllocError>
    ensures { IfOk result (λ read. ParsesLine (codes "put " ++ fields.now) read) }
{
    let Some((row, value)) = read_row_with_value(alloc, fields)? else {
        return Ok(None);
    };
    Ok(Some(Line::Put {
        trx: row.number,
        table: row.table,
        key: row.key,
        value,
    }))
}

/// The `del` with these fields: a transaction, a table and a key.
fn delete(fields: &[u8]) -> Option<Line>
    ensures { ParsesLine (codes "del " ++ fields.now) result }
{
    let row = read_row(fields)?;
    Some(Line::Delete {
        trx: row.number,
        table: row.table,
        key: row.key,
    })
}

/// The `get` with these fields: a transaction, a table and a key.
fn get(fields: &[u8]) -> Option<Line>
    ensures { ParsesLine (codes "get " ++ fields.now) result }
{
    let row = read_row(fields)?;
    Some(Line::Get {
        trx: row.number,
        table: row.table,
        key: row.key,
    })
}

/// The `undo` with this field: a transaction.
fn undo(field: &[u8]) -> Option<Line>
    ensures { ParsesLine (codes "undo " ++ field.now) result }
{
    let trx = small_number(field)?;
    Some(Line::Undo { trx })
}

/// The `commit` with this field: a transaction.
fn commit(field: &[u8]) -> Option<Line>
    ensures { ParsesLine (codes "commit " ++ field.now) result }
{
    let trx = small_number(field)?;
    Some(Line::Commit { trx })
}

/// The `set` with these fields: a writer, a table, a key and a value.
fn set(alloc: Global, fields: &[u8]) -> Result<Option<Line>, AllocError>
    ensures { IfOk result (λ read. ParsesLine (codes "set " ++ fields.now) read) }
{
    let Some((row, value)) = read_row_with_value(alloc, fields)? else {
        return Ok(None);
    };
    Ok(Some(Line::Set {
        writer: row.number,
        table: row.table,
        key: row.key,
        value,
    }))
}

/// The `flush` with these fields: a space and a page.
fn flush(fields: &[u8]) -> Option<Line>
    ensures { ParsesLine (codes "flush " ++ fields.now) result }
{
    let (space, page) = leading_number(fields)?;
    Some(Line::Flush {
        space: space_number(space)?,
        page: page_number(page)?,
    })
}

/// The `half` with these fields: a space and a page.
fn half(fields: &[u8]) -> Option<Line>
    ensures { ParsesLine (codes "half " ++ fields.now) result }
{
    let (space, page) = leading_number(fields)?;
    Some(Line::Half {
        space: space_number(space)?,
        page: page_number(page)?,
    })
}

/// The `land` with these fields: a space and a page.
fn land(fields: &[u8]) -> Option<Line>
    ensures { ParsesLine (codes "land " ++ fields.now) result }
{
    let (space, page) = leading_number(fields)?;
    Some(Line::Land {
        space: space_number(space)?,
        page: page_number(page)?,
    })
}

/// The `tear` with this field: a byte.
fn tear(field: &[u8]) -> Option<Line>
    ensures { ParsesLine (codes "tear " ++ field.now) result }
{
    let byte = byte_of(field)?;
    Some(Line::Tear { byte })
}

/// The `fail donor` with this field: the number of a call.
fn fail_donor(field: &[u8]) -> Option<Line>
    ensures { ParsesLine (codes "fail donor " ++ field.now) result }
{
    let call = call_of(field)?;
    Some(Line::FailDonor { call })
}

/// The `fail recipient` with this field: the number of a call.
fn fail_recipient(field: &[u8]) -> Option<Line>
    ensures { ParsesLine (codes "fail recipient " ++ field.now) result }
{
    let call = call_of(field)?;
    Some(Line::FailRecipient { call })
}

/// The `archive` with this field: a number of bytes.
fn archive(field: &[u8]) -> Option<Line>
    ensures { ParsesLine (codes "archive " ++ field.now) result }
{
    let bytes = small_number(field)?;
    Some(Line::Archive { bytes })
}

/// The `task` with this field: the number of a task.
fn task(field: &[u8]) -> Option<Line>
    ensures { ParsesLine (codes "task " ++ field.now) result }
{
    let task = task_number(field)?;
    Some(Line::Task { task })
}

/// The `serve` with this field: a connection.
fn serve(field: &[u8]) -> Option<Line>
    ensures { ParsesLine (codes "serve " ++ field.now) result }
{
    let connection = small_number(field)?;
    Some(Line::Serve { connection })
}

/// The `cut` with these fields: a connection, and two numbers of bytes.
fn cut(fields: &[u8]) -> Option<Line>
    ensures { ParsesLine (codes "cut " ++ fields.now) result }
{
    let (connection, rest) = leading_number(fields)?;
    let (to_donor, to_task) = leading_number(rest)?;
    Some(Line::Cut {
        connection: as_u32(connection)?,
        to_donor: as_u32(to_donor)?,
        to_task: small_number(to_task)?,
    })
}

/// The `raw` with this field: bytes.
fn raw(field: &[u8]) -> Option<Line>
    ensures { ParsesLine (codes "raw " ++ field.now) result }
{
    let bytes = some_bytes(field)?;
    Some(Line::Raw { bytes })
}

/// The `feed` with these fields: a connection and bytes.
fn feed(fields: &[u8]) -> Option<Line>
    ensures { ParsesLine (codes "feed " ++ fields.now) result }
{
    let (connection, bytes) = leading_number(fields)?;
    Some(Line::Feed {
        connection: as_u32(connection)?,
        bytes: some_bytes(bytes)?,
    })
}

/// The `repeat` with this field: the number of a commit that was sent.
fn repeat(field: &[u8]) -> Option<Line>
    ensures { ParsesLine (codes "repeat " ++ field.now) result }
{
    let sent = number_of(field)?;
    Some(Line::Repeat { sent })
}
