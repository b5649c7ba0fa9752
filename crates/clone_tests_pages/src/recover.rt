//! Recovery of complete clones, from redo whose bytes were worked out by hand.

use crate::disks::{complete, damaged, put, read, recovered};
use clone_base::REDO_SPACE;
use clone_memdisk::MemDisk;
use clone_model::Value;
use clone_outside::PageDisk;
use clone_page::{Page, PageKind};
use clone_recover::{RecoverRefusal, Recovered, Why, open_rows};
use std::alloc::Global;
use std::process::Abort;
use std::test::Fail;

// A transaction that gave a row its value.
const OPEN_CHANGE: [&[u8]; 8] = [
    &OPENING,
    &CREATE,
    &BEGIN,
    &UNDO,
    &[0; 72],
    &ROW,
    &[0; 62],
    &[6],
];

// The same, and its commit.
const COMMITTED: [&[u8]; 9] = [
    &OPENING,
    &CREATE,
    &BEGIN,
    &UNDO,
    &[0; 72],
    &ROW,
    &[0; 62],
    &[6],
    &COMMIT,
];

const OPENING: [u8; 21] = [
    4, 0, 0, 0, 0, 0, 0, 1, 1, // 257 pages in space 0
    1, 0, 0, 0, 0, 0, 0, 0, 0, 0, 1, // page 0 of it is a system page
    6,
];

const CREATE: [u8; 39] = [
    4, 0, 0, 0, 1, 0, 0, 0, 4, // 4 pages in space 1
    2, 0, 0, 0, 0, 0, 0, 0, 0, 0, 64, 0, 16, // on page 0 of space 0, from 64 on, 16 bytes
    0, 0, 0, 1, 0, 0, 0, 4, 0, 0, 0, 4, 0, 0, 0, 0, // table 1, 4 buckets, 4 pages
    6,
];

const BEGIN: [u8; 41] = [
    1, 0, 0, 0, 0, 0, 0, 0, 1, 0, 2, // page 1 of space 0 is an undo page
    2, 0, 0, 0, 0, 0, 0, 0, 1, 0, 40, 0, 16, // on it, from 40 on, 16 bytes
    1, 0, 0, 0, 0, 0, 0, 0, 0, 0, 0, 0, 0, 0, 0, 0, // writer 0 begins its transaction 0
    6,
];

const UNDO: [u8; 37] = [
    2, 0, 0, 0, 0, 0, 0, 0, 1, 0, 64, 0, 96, // on page 1 of space 0, from 64 on, 96 bytes
    0, 0, 0, 1, 0, 0, 0, 3, 0, 0, 2, 0, 0, 0, 0, 0, // slot 0 of page 3 of table 1 was absent
    0, 0, 0, 0, 0, 0, 0, 7, // key 7, without a value
];

const ROW: [u8; 57] = [
    2, 0, 0, 0, 0, 0, 0, 0, 1, 0, 42, 0, 2, 0, 1, // the count of undo records is 1
    1, 0, 0, 0, 1, 0, 0, 0, 3, 0, 3, // page 3 of space 1 is a bucket page
    2, 0, 0, 0, 1, 0, 0, 0, 3, 0, 48, 0, 80, // on it, from 48 on, 80 bytes
    1, 2, 0, 0, 0, 0, 0, 0, // present, 2 bytes
    0, 0, 0, 0, 0, 0, 0, 7, 104, 105, // key 7, "hi"
];

const COMMIT: [u8; 51] = [
    2, 0, 0, 0, 0, 0, 0, 0, 1, 0, 40, 0, 16, // on page 1 of space 0, from 40 on, 16 bytes
    0, 0, 0, 0, 0, 0, 0, 0, 0, 0, 0, 0, 0, 0, 0, 0, // undo slot 0 is free
    2, 0, 0, 0, 0, 0, 0, 0, 0, 0, 40, 0, 8, // on page 0 of it, from 40 on, 8 bytes
    0, 0, 0, 0, 0, 0, 0, 1, // one commit
    6,
];

/// What is damaged by one byte at an offset of the redo: the offset, the byte, and the space, the
/// page and the cause that recovery names.
type Damage = (usize, u8, u32, u32, Why);

const DAMAGES: [Damage; 7] = [
    // no end mark
    (329, 5, REDO_SPACE, 0, Why::Redo),
    // no first record
    (0, 7, REDO_SPACE, 0, Why::Redo),
    // the dictionary names table 2
    (46, 2, 0, 0, Why::Dictionary),
    // the undo record names table 2, page 9, state 3
    (117, 2, 0, 1, Why::Undo),
    (121, 9, 0, 1, Why::Undo),
    (124, 3, 0, 1, Why::Undo),
    // 161 undo records
    (224, 161, 0, 1, Why::Undo),
];

// The byte 9 is written on page 3 of space 1, from 48 on.
const BYTE: [u8; 15] = [2, 0, 0, 0, 1, 0, 0, 0, 3, 0, 48, 0, 1, 9, 6];

// The same with the byte 8.
const LAST_BYTE: [u8; 15] = [2, 0, 0, 0, 1, 0, 0, 0, 3, 0, 48, 0, 1, 8, 6];

// The same in the redo's space, which has the number 4,294,967,040.
const BYTE_OF_REDO: [u8; 15] = [2, 255, 255, 255, 0, 0, 0, 0, 3, 0, 48, 0, 1, 9, 6];

/// A page LSN; the offset of one of these bytes, and what stands there; and the byte and the page
/// LSN that the page has then.
type Change = (u64, usize, u8, u8, u64);

const CHANGES: [Change; 5] = [
    // the page is older than the end of the mini-transaction, as old, or younger
    (8_206, 13, 9, 9, 8_207),
    (8_207, 13, 9, 0, 8_207),
    (9_000, 13, 9, 0, 9_000),
    // a space that isn't there, and a page past the end
    (8_000, 4, 7, 0, 8_000),
    (8_000, 8, 7, 0, 8_000),
];

// The redo of these parts.
fn joined(alloc: Global, parts: &[&[u8]]) -> Result<Vec<u8>, Fail> {
    let mut redo = Vec::new(alloc);
    for part in parts {
        redo.extend_from_slice(part)?;
    }
    Ok(redo)
}

// Puts this byte at an offset, if there is one.
fn set(bytes: &mut [u8], offset: usize, byte: u8) {
    if let Some(old) = bytes.get_mut(offset) {
        *old = byte;
    }
}

// Space 1 has four pages, of which page 3 is for rows and has this page LSN.
fn based(alloc: Global, lsn: u64) -> Result<MemDisk, Fail> {
    let mut disk = MemDisk::new(alloc);
    disk.create(1, 4)?;
    let mut page = Page::zero();
    page.init(1, 3, PageKind::Bucket, lsn);
    put(&mut disk, 1, 3, page.bytes())?;
    Ok(disk)
}

// Whether page 3 of space 1 has this byte from 48 on, and this page LSN.
fn has_byte_and_lsn(disk: &mut MemDisk, byte: u8, lsn: u64) -> Result<bool, Fail> {
    let bytes = read(disk, 1, 3)?;
    Ok(bytes[48] == byte && Page::from_bytes(&bytes).lsn() == lsn)
}

// Whether a space has so many pages.
fn has_pages(disk: &mut MemDisk, space: u32, pages: Option<u32>) -> Result<bool, Fail> {
    Ok(disk.pages(space)? == pages)
}

// The rows of a recovered disk.
fn rows_of(alloc: Global, disk: &mut MemDisk) -> Result<Vec<(u32, u64, Value)>, RecoverRefusal> {
    open_rows(alloc, disk)
}

// The only row is that of key 7 in table 1, with the value "hi".
fn is_one_row(rows: &[(u32, u64, Value)]) -> bool {
    match rows {
        [(table, key, value)] => { (*table, *key) == (1, 7) && value.bytes() == b"hi".as_slice() }
        _ => false,
    }
}

// A disk without spaces, but for the redo of these parts.
fn with_redo(alloc: Global, parts: &[&[u8]]) -> Result<MemDisk, Fail> {
    let mut disk = MemDisk::new(alloc);
    complete(&mut disk, &joined(alloc, parts)?)?;
    Ok(disk)
}

#[test]
fn a_committed_row(rt: HostRuntime) -> Result<(), Fail> {
    let mut disk = with_redo(rt.alloc(), &COMMITTED)?;
    let early = rows_of(rt.alloc(), &mut disk).err();
    assert!(rt; early == Some(RecoverRefusal::Incomplete));
    let numbers = Recovered {
        lsn: 8573,
        position: 5,
    };
    assert!(rt; recovered(rt.alloc(), &mut disk) == Ok(numbers));
    let rows = rows_of(rt.alloc(), &mut disk).ok().ok_or("rows")?;
    assert!(rt; is_one_row(&rows));
    Ok(())
}

// A disk whose redo makes its space 1 anew.
fn with_space(alloc: Global) -> Result<MemDisk, Fail> {
    let mut disk = with_redo(alloc, &OPEN_CHANGE)?;
    disk.create(1, 9)?;
    Ok(disk)
}

#[test]
fn an_open_change_is_taken_back(rt: HostRuntime) -> Result<(), Fail> {
    let mut disk = with_space(rt.alloc())?;
    assert!(rt; recovered(rt.alloc(), &mut disk).is_ok());
    let rows = rows_of(rt.alloc(), &mut disk).ok().ok_or("rows")?;
    assert!(rt; rows.is_empty());
    assert!(rt; has_pages(&mut disk, 0, Some(257))? && has_pages(&mut disk, 1, Some(4))?);
    assert!(rt; has_byte_and_lsn(&mut disk, 2, 8_522)?);
    let header = read(&mut disk, 0, 1)?;
    assert!(rt; header.get(40..56) == Some([0; 16].as_slice()));
    Ok(())
}

// A disk with the redo of a change over a page with this LSN. One byte of the redo is this one.
fn with_change(alloc: Global, lsn: u64, offset: usize, byte: u8) -> Result<MemDisk, Fail> {
    let mut redo = BYTE;
    set(&mut redo, offset, byte);
    let mut disk = based(alloc, lsn)?;
    complete(&mut disk, &redo)?;
    Ok(disk)
}

// A change over a page that has an LSN leaves this byte and this LSN.
fn expect_change(rt: &impl Abort, alloc: Global, change: &Change) -> Result<(), Fail> {
    let (lsn, offset, put, byte, after) = *change;
    let mut disk = with_change(alloc, lsn, offset, put)?;
    assert!(rt; recovered(alloc, &mut disk).is_ok());
    assert!(rt; has_byte_and_lsn(&mut disk, byte, after)?);
    assert!(rt; has_pages(&mut disk, 1, Some(4))? && has_pages(&mut disk, 7, None)?);
    Ok(())
}

// A record changes a page exactly where the page is there and older than the end of the record's
// mini-transaction, and makes no space.
#[test]
fn a_change_over_a_page(rt: HostRuntime) -> Result<(), Fail> {
    for change in &CHANGES {
        expect_change(&rt, rt.alloc(), change)?;
    }
    Ok(())
}

// One byte of the redo is another one, and recovery says so.
fn expect_damage(rt: &impl Abort, alloc: Global, damage: &Damage) -> Result<(), Fail> {
    let (offset, byte, space, page, why) = *damage;
    let mut redo = joined(alloc, &OPEN_CHANGE)?;
    set(&mut redo, offset, byte);
    let mut disk = MemDisk::new(alloc);
    complete(&mut disk, &redo)?;
    assert!(rt; recovered(alloc, &mut disk) == damaged(space, page, why));
    Ok(())
}

#[test]
fn damaged_redo(rt: HostRuntime) -> Result<(), Fail> {
    for damage in &DAMAGES {
        expect_damage(&rt, rt.alloc(), damage)?;
    }
    Ok(())
}

// A page is damaged whose trailer isn't that of its page LSN, where redo names it.
#[test]
fn a_damaged_page(rt: HostRuntime) -> Result<(), Fail> {
    let mut disk = based(rt.alloc(), 8_000)?;
    let mut bytes = read(&mut disk, 1, 3)?;
    set(&mut bytes, 4_095, 1);
    put(&mut disk, 1, 3, &bytes)?;
    complete(&mut disk, &BYTE)?;
    assert!(rt; recovered(rt.alloc(), &mut disk) == damaged(1, 3, Why::Header));
    Ok(())
}

// A record is damaged that names the redo's space.
#[test]
fn a_record_of_the_redo_itself(rt: HostRuntime) -> Result<(), Fail> {
    let mut disk = based(rt.alloc(), 8_000)?;
    complete(&mut disk, &BYTE_OF_REDO)?;
    assert!(rt; recovered(rt.alloc(), &mut disk) == damaged(REDO_SPACE, 0, Why::Redo));
    Ok(())
}

// So many changes, of which the last is another byte.
fn many_changes(alloc: Global, count: u32) -> Result<Vec<u8>, Fail> {
    let mut redo = Vec::new(alloc);
    for _ in 1..count {
        redo.extend_from_slice(&BYTE)?;
    }
    redo.extend_from_slice(&LAST_BYTE)?;
    Ok(redo)
}

// The last of 274 mini-transactions of 15 bytes lies on two pages of the redo.
#[test]
fn redo_on_two_pages(rt: HostRuntime) -> Result<(), Fail> {
    let mut disk = based(rt.alloc(), 8_000)?;
    complete(&mut disk, &many_changes(rt.alloc(), 274)?)?;
    assert!(rt; recovered(rt.alloc(), &mut disk).is_ok());
    assert!(rt; has_byte_and_lsn(&mut disk, 8, 12_302)?);
    Ok(())
}
