//! Disks in memory that have a complete clone, and what recovery answers over them. (What it
//! promises is no matter for its callers here.)

use clone_base::{FIRST_LSN, PAGE_SIZE, REDO_SPACE};
use clone_memdisk::MemDisk;
use clone_outside::{CloneEnd, Mark, PageDisk};
use clone_recover::{RecoverRefusal, Recovered, Why, recover};
use std::alloc::Global;
use std::test::Fail;

/// Puts a page on the disk.
pub fn put(
    disk: &mut MemDisk,
    space: u32,
    number: u32,
    bytes: &[u8; PAGE_SIZE],
) -> Result<(), Fail> {
    disk.write_half(space, number, bytes)?;
    disk.write_rest(space, number, bytes)?;
    Ok(())
}

/// A page of the disk.
pub fn read(disk: &mut MemDisk, space: u32, number: u32) -> Result<[u8; PAGE_SIZE], Fail> {
    let mut bytes = [0; PAGE_SIZE];
    disk.read_page(space, number, &mut bytes)?;
    Ok(bytes)
}

/// Puts redo on the disk, of at most two pages, and the mark of a clone that is complete, with five
/// commits.
pub fn complete(disk: &mut MemDisk, redo: &[u8]) -> Result<(), Fail> {
    if redo.len() > 2 * PAGE_SIZE {
        return Err(Fail::from("too much redo"));
    }
    put_redo(disk, redo)?;
    let end = CloneEnd {
        session: 1,
        checkpoint: FIRST_LSN,
        lsn: FIRST_LSN + redo.len() as u64,
        position: 5,
    };
    disk.write_mark(&Mark::Complete(end).to_bytes())?;
    Ok(())
}

fn put_redo(disk: &mut MemDisk, redo: &[u8]) -> Result<(), Fail> {
    let (first, rest) = redo.split_at(redo.len().min(PAGE_SIZE));
    disk.create(REDO_SPACE, 2)?;
    put(disk, REDO_SPACE, 0, &page_of(first))?;
    put(disk, REDO_SPACE, 1, &page_of(rest))
}

// A page that begins with these bytes, as far as it has room.
fn page_of(bytes: &[u8]) -> [u8; PAGE_SIZE] {
    let mut page = [0; PAGE_SIZE];
    let length = bytes.len().min(PAGE_SIZE);
    page[..length].copy_from_slice(&bytes[..length]);
    page
}

/// What recovery answers.
pub fn recovered(alloc: Global, disk: &mut MemDisk) -> Result<Recovered, RecoverRefusal> {
    recover(alloc, disk)
}

/// The answer that a page is damaged.
pub fn damaged(space: u32, page: u32, why: Why) -> Result<Recovered, RecoverRefusal> {
    Err(RecoverRefusal::Damaged { space, page, why })
}
