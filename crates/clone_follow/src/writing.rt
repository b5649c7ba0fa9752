//! The spelling of a payload: its fields in the order that `specs/Spelling.antt` gives, with
//! nothing between them. Numbers have their highest byte first.
ghost use Rattle.std.specs.Prelude.{◌≡◌, ◌≤◌, ◌<◌, ◌^◌, ◌++◌, ◌*◌, ◌+◌, length, OnOk};
ghost use Rattle.std.specs.List.{flat_map, AllByRecursion};
ghost use Rattle.byteorder.specs.Endian.{big_bytes};
ghost use Rattle.clone_base.specs.declared.limits.TheConstants.{CHANGE_LIMIT};
ghost use Rattle.clone_follow.specs.declared.limits.TheConstants.{MOST_CHANGE, COMMIT_FIELDS};
ghost use Rattle.clone_follow.specs.Ranges.{HasWidth, IsValue, IsChange, IsCommit, IsFrame};
ghost use Rattle.clone_follow.specs.Spelling.{value_bytes, change_bytes, commit_bytes, payload};

use crate::FollowFrame;
use crate::limits::COMMIT_FIELDS;
use crate::payloads::change_len;
use byteorder::{BigEndian, ByteOrder};
use clone_model::{Change, Commit, Value};
use std::alloc::AllocError;

// Each function appends fields to a text. Where memory runs out it may have appended some of them.
// The clause `kept` says what the types of the fields keep.

fn push_u16(text: &mut Vec<u8>, n: u16) -> Result<(), AllocError>
    ensures { OnOk result (text.new.items ≡ text.old.items ++ big_bytes 2 n) }
{
    let mut bytes = [0; 2];
    BigEndian::write_u16(&mut bytes, n);
    text.extend_from_slice(&bytes)
}

pub(crate) fn push_u32(text: &mut Vec<u8>, n: u32) -> Result<(), AllocError>
    ensures text { OnOk result (text.new.items ≡ text.old.items ++ big_bytes 4 n) }
    ensures kept { HasWidth 4 n }
{
    let mut bytes = [0; 4];
    BigEndian::write_u32(&mut bytes, n);
    text.extend_from_slice(&bytes)
}

fn push_u64(text: &mut Vec<u8>, n: u64) -> Result<(), AllocError>
    ensures text { OnOk result (text.new.items ≡ text.old.items ++ big_bytes 8 n) }
    ensures kept { HasWidth 8 n }
{
    let mut bytes = [0; 8];
    BigEndian::write_u64(&mut bytes, n);
    text.extend_from_slice(&bytes)
}

fn push_value(text: &mut Vec<u8>, value: &Option<Value>) -> Result<(), AllocError>
    ensures text { OnOk result (text.new.items ≡ text.old.items ++ value_bytes value.now) }
    ensures kept { OnOk result (IsValue value.now) }
{
    match value {
        None => text.extend_from_slice(&[0, 0]),
        Some(value) => {
            let bytes = value.bytes();
            text.extend_from_slice(&[1, bytes.len() as u8])?;
            text.extend_from_slice(bytes)
        }
    }
}

fn push_change(text: &mut Vec<u8>, change: &Change) -> Result<(), AllocError>
    ensures text { OnOk result (text.new.items ≡ text.old.items ++ change_bytes change.now) }
    ensures kept { OnOk result (IsChange change.now) }
{
    push_u32(text, change.table)?;
    push_u64(text, change.key)?;
    push_value(text, &change.value)
}

fn push_changes(text: &mut Vec<u8>, changes: &[Change]) -> Result<(), AllocError>
    ensures text { OnOk result (text.new.items
        ≡ text.old.items ++ flat_map change_bytes changes.now) }
    ensures kept { OnOk result (AllByRecursion IsChange changes.now) }
{
    for change in changes {
        push_change(text, change)?;
    }
    Ok(())
}

fn push_commit(text: &mut Vec<u8>, commit: &Commit) -> Result<(), AllocError>
    requires few { length commit.now.changes ≤ CHANGE_LIMIT }
    ensures text { OnOk result (text.new.items ≡ text.old.items ++ commit_bytes commit.now) }
    ensures kept { OnOk result (IsCommit commit.now) }
{
    let changes = commit.changes.as_slice();
    push_u32(text, commit.writer)?;
    push_u64(text, commit.index)?;
    push_u16(text, changes.len() as u16)?;
    push_changes(text, changes)
}

/// Appends the payload of a frame.
pub(crate) fn push_payload(text: &mut Vec<u8>, frame: &FollowFrame) -> Result<(), AllocError>
    ensures text { OnOk result (text.new.items ≡ text.old.items ++ payload frame.now) }
    ensures kept { OnOk result (IsFrame frame.now) }
{
    match frame {
        FollowFrame::Want { position } | FollowFrame::Current { position } => {
            push_u64(text, *position)
        }
        FollowFrame::Commit { position, commit } => {
            push_u64(text, *position)?;
            push_commit(text, commit.as_commit())
        }
    }
}

fn changes_len(changes: &[Change]) -> usize
    requires few { length changes.now ≤ CHANGE_LIMIT }
    ensures long { result ≡ length (flat_map change_bytes changes.now) }
    ensures most { result ≤ MOST_CHANGE * CHANGE_LIMIT }
{
    let mut long = 0;
    for change in changes {
        long += change_len(change);
    }
    long
}

/// How many bytes the payload of a frame has.
pub(crate) fn payload_len(frame: &FollowFrame) -> usize
    ensures long { result ≡ length (payload frame.now) }
    ensures most { result ≤ COMMIT_FIELDS + MOST_CHANGE * CHANGE_LIMIT }
{
    match frame {
        FollowFrame::Want { .. } | FollowFrame::Current { .. } => 8,
        FollowFrame::Commit { commit, .. } => {
            COMMIT_FIELDS + changes_len(commit.as_commit().changes.as_slice())
        }
    }
}
