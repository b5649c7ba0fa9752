//! The bytes of the mini-transactions of tables and of transactions.

use clone_model::Value;
use clone_mtr::{LONGEST_MTR, Record, encode_into};
use clone_row::slot_image;
use clone_space::{create_records, drop_records, growth_records};
use clone_undo::{
    Before, UndoRecord, begin_records, end_record, first_change_records, take_back_records,
};
use std::test::Fail;

// Table 1 is made with 4 buckets, and named in the first entry.
const CREATE: [u8; 39] = [
    4, 0, 0, 0, 1, 0, 0, 0, 4, // space 1 has 4 pages
    2, 0, 0, 0, 0, 0, 0, 0, 0, 0, 64, 0, 16, // on page 0 of space 0, from 64 on, 16 bytes
    0, 0, 0, 1, 0, 0, 0, 4, 0, 0, 0, 4, 0, 0, 0, 0, // the entry
    6,
];

// Its space gets a fifth page, behind page 3.
const GROWTH: [u8; 55] = [
    2, 0, 0, 0, 0, 0, 0, 0, 0, 0, 72, 0, 4, 0, 0, 0, 5, // the entry tells 5 pages
    3, 0, 0, 0, 1, 0, 0, 0, 5, // space 1 has 5 pages
    1, 0, 0, 0, 1, 0, 0, 0, 4, 0, 4, // page 4 of it is an overflow page
    2, 0, 0, 0, 1, 0, 0, 0, 3, 0, 12, 0, 4, 0, 0, 0, 4, // it is the next page of page 3
    6,
];

// The table is dropped.
const DROP: [u8; 35] = [
    5, 0, 0, 0, 1, // space 1 is gone
    2, 0, 0, 0, 0, 0, 0, 0, 0, 0, 64, 0, 16, // on page 0 of space 0, from 64 on, 16 bytes
    0, 0, 0, 0, 0, 0, 0, 0, 0, 0, 0, 0, 0, 0, 0, 0, //
    6,
];

// Writer 0 begins its transaction 0 in undo slot 0, whose first page was unused.
const BEGIN: [u8; 41] = [
    1, 0, 0, 0, 0, 0, 0, 0, 1, 0, 2, // page 1 of space 0 is an undo page
    2, 0, 0, 0, 0, 0, 0, 0, 1, 0, 40, 0, 16, // on it, from 40 on, 16 bytes
    1, 0, 0, 0, 0, 0, 0, 0, 0, 0, 0, 0, 0, 0, 0, 0, // the header
    6,
];

// It gives key 7 the value `hi` in slot 0 of page 3 of table 1, which was absent and whose page was
// unused.
const CHANGE: [&[u8]; 5] = [&UNDO, &[0; 72], &ROW, &[0; 62], &[6]];

const UNDO: [u8; 37] = [
    2, 0, 0, 0, 0, 0, 0, 0, 1, 0, 64, 0, 96, // on undo page 1, from 64 on, 96 bytes
    0, 0, 0, 1, 0, 0, 0, 3, 0, 0, 2, 0, 0, 0, 0, 0, // slot 0 of page 3 was absent
    0, 0, 0, 0, 0, 0, 0, 7, // the key
];

const ROW: [u8; 57] = [
    2, 0, 0, 0, 0, 0, 0, 0, 1, 0, 42, 0, 2, // on undo page 1, from 42 on, 2 bytes
    0, 1, // one change
    1, 0, 0, 0, 1, 0, 0, 0, 3, 0, 3, // page 3 of space 1 is a bucket page
    2, 0, 0, 0, 1, 0, 0, 0, 3, 0, 48, 0, 80, // on it, from 48 on, 80 bytes
    1, 2, 0, 0, 0, 0, 0, 0, // present, with two bytes
    0, 0, 0, 0, 0, 0, 0, 7, // the key
    104, 105, // the value
];

// The change is taken back.
const TAKING_BACK: [&[u8]; 3] = [&ABSENT, &[0; 64], &NO_CHANGE];

const ABSENT: [u8; 29] = [
    2, 0, 0, 0, 1, 0, 0, 0, 3, 0, 48, 0, 80, // on page 3 of space 1, from 48 on, 80 bytes
    2, 0, 0, 0, 0, 0, 0, 0, // absent, with no byte
    0, 0, 0, 0, 0, 0, 0, 7, // the key
];

const NO_CHANGE: [u8; 16] = [
    2, 0, 0, 0, 0, 0, 0, 0, 1, 0, 42, 0, 2, // on page 1 of space 0, from 42 on, 2 bytes
    0, 0, // no change
    6,
];

// Undo slot 0 is free.
const END: [u8; 30] = [
    2, 0, 0, 0, 0, 0, 0, 0, 1, 0, 40, 0, 16, // on page 1 of space 0, from 40 on, 16 bytes
    0, 0, 0, 0, 0, 0, 0, 0, 0, 0, 0, 0, 0, 0, 0, 0, // no header
    6,
];

// The bytes of a mini-transaction are these parts.
fn is_spelled(records: &[Record], parts: &[&[u8]]) -> bool {
    let mut text = [0; LONGEST_MTR];
    if records.is_empty() {
        return false;
    }
    match encode_into(records, &mut text) {
        Ok(length) => are(&text[..length], parts),
        Err(_) => false,
    }
}

fn are(bytes: &[u8], parts: &[&[u8]]) -> bool {
    let mut rest = bytes;
    for part in parts {
        match rest.strip_prefix(*part) {
            Some(behind) => rest = behind,
            None => return false,
        }
    }
    rest.is_empty()
}

#[test]
fn the_bytes_of_a_table(rt: HostRuntime) {
    assert!(rt; is_spelled(&create_records(0, 1, 4), &[&CREATE]));
    assert!(rt; is_spelled(&growth_records(0, 1, 4, 3), &[&GROWTH]));
    assert!(rt; is_spelled(&drop_records(0, 1), &[&DROP]));
}

#[test]
fn the_bytes_of_a_transaction(rt: HostRuntime) {
    assert!(rt; is_spelled(&begin_records(0, 0, 0), &[&BEGIN]));
    assert!(rt; is_spelled(&[end_record(0)], &[&END]));
}

// The change of key 7, whose slot was absent, for the undo page and for the row.
fn change(value: &Value) -> [Record; 5] {
    let record = UndoRecord::new(1, 3, 0, 7, Before::Absent);
    first_change_records(0, 0, &record, &slot_image(7, Some(value)))
}

// Whether the change without its first record, which makes the undo page, has these bytes.
fn is_changed(value: &Value) -> bool {
    let records = change(value);
    let all = &records[..];
    is_spelled(&all[1..], &CHANGE)
}

#[test]
fn the_bytes_of_a_change(rt: HostRuntime) -> Result<(), Fail> {
    let value = Value::new(b"hi").ok_or("at most 64 bytes")?;
    assert!(rt; is_changed(&value));
    let record = UndoRecord::new(1, 3, 0, 7, Before::Absent);
    assert!(rt; is_spelled(&take_back_records(0, 1, &record), &TAKING_BACK));
    Ok(())
}
