//! The chains of the tables of a clone that has no redo, which recovery tests.

use crate::disks::{complete, damaged, put, recovered};
use clone_base::FIRST_LSN;
use clone_memdisk::MemDisk;
use clone_outside::PageDisk;
use clone_page::{NO_PAGE, Page, PageKind};
use clone_recover::{RecoverRefusal, Recovered, Why};
use std::alloc::Global;
use std::process::Abort;
use std::test::Fail;

// Where on a page the number of the next one stands, and where the dictionary's first two entries
// do.
const NEXT_AT: u16 = 12;

const FIRST_ENTRY_AT: u16 = 64;

const SECOND_ENTRY_AT: u16 = 80;

// How many pages a table has.
const PAGES: u32 = 5;

/// For each page of a table the one that it names.
type Next = [u32; PAGES as usize];

/// How many buckets a table has, the page that each of its pages names, and the page on which one
/// of its chains is broken, if one is.
type Chains = (u8, Next, Option<u32>);

const CHAINS: [Chains; 9] = [
    // a chain of three pages beside one of two
    (2, [2, 4, 3, NO_PAGE, NO_PAGE], None),
    // a page on two chains
    (2, [2, 3, 3, 4, NO_PAGE], None),
    // a chain that goes on with another one
    (2, [NO_PAGE, 2, 0, NO_PAGE, NO_PAGE], None),
    // a chain that leaves the space
    (2, [2, NO_PAGE, 3, 5, NO_PAGE], Some(3)),
    // one that comes back to its second page
    (2, [NO_PAGE, 2, 3, 4, 2], Some(4)),
    // a page that names itself
    (1, [0, NO_PAGE, NO_PAGE, NO_PAGE, NO_PAGE], Some(0)),
    // a chain that comes back to another bucket
    (2, [1, 3, NO_PAGE, 1, NO_PAGE], Some(3)),
    // a bucket that isn't there, behind a chain that leaves the space
    (6, [NO_PAGE, NO_PAGE, 9, NO_PAGE, NO_PAGE], Some(2)),
    // a bucket that isn't there
    (6, [NO_PAGE, NO_PAGE, NO_PAGE, NO_PAGE, NO_PAGE], Some(5)),
];

// A page with this kind and no rows.
fn made(space: u32, number: u32, kind: PageKind) -> Page {
    let mut page = Page::zero();
    page.init(space, number, kind, FIRST_LSN);
    page
}

// The bytes of the dictionary's entry of a table.
fn entry(table: u8, buckets: u8) -> [u8; 16] {
    [0, 0, 0, table, 0, 0, 0, buckets, 0, 0, 0, 5, 0, 0, 0, 0]
}

// A complete clone without redo, of which the dictionary has these two entries.
fn with_tables(alloc: Global, first: &[u8; 16], second: &[u8; 16]) -> Result<MemDisk, Fail> {
    let mut disk = MemDisk::new(alloc);
    disk.create(0, 1)?;
    let mut system = made(0, 0, PageKind::System);
    system.write_at(FIRST_ENTRY_AT, first);
    system.write_at(SECOND_ENTRY_AT, second);
    put(&mut disk, 0, 0, system.bytes())?;
    complete(&mut disk, &[])?;
    Ok(disk)
}

// Gives the disk the pages of a table, each of which names the next one so.
fn put_table(disk: &mut MemDisk, table: u32, next: &Next) -> Result<(), Fail> {
    disk.create(table, PAGES)?;
    for number in 0..PAGES {
        let mut page = made(table, number, PageKind::Bucket);
        page.write_at(NEXT_AT, &next[number as usize].to_be_bytes());
        put(disk, table, number, page.bytes())?;
    }
    Ok(())
}

// A complete clone of table 7 alone, whose chains are these.
fn with_table(alloc: Global, buckets: u8, next: &Next) -> Result<MemDisk, Fail> {
    let mut disk = with_tables(alloc, &entry(7, buckets), &[0; 16])?;
    put_table(&mut disk, 7, next)?;
    Ok(disk)
}

// What recovery answers of a table that is broken on a page, or of one that isn't broken.
fn is_due(found: Result<Recovered, RecoverRefusal>, broken: Option<u32>) -> bool {
    match broken {
        Some(page) => found == damaged(7, page, Why::Chain),
        None => found.is_ok(),
    }
}

fn expect_chains(rt: &impl Abort, alloc: Global, chains: &Chains) -> Result<(), Fail> {
    let (buckets, next, broken) = chains;
    let mut disk = with_table(alloc, *buckets, next)?;
    assert!(rt; is_due(recovered(alloc, &mut disk), *broken));
    Ok(())
}

#[test]
fn chains_of_one_table(rt: HostRuntime) -> Result<(), Fail> {
    for chains in &CHAINS {
        expect_chains(&rt, rt.alloc(), chains)?;
    }
    Ok(())
}

// Tables go by their numbers, wherever their entries stand.
#[test]
fn the_first_table_that_is_broken(rt: HostRuntime) -> Result<(), Fail> {
    let mut disk = with_tables(rt.alloc(), &entry(9, 1), &entry(3, 2))?;
    put_table(&mut disk, 9, &[5, NO_PAGE, NO_PAGE, NO_PAGE, NO_PAGE])?;
    put_table(&mut disk, 3, &[2, 1, NO_PAGE, NO_PAGE, NO_PAGE])?;
    assert!(rt; recovered(rt.alloc(), &mut disk) == damaged(3, 1, Why::Chain));
    Ok(())
}

// A clone of table 7 alone, whose page 2 has the number of another one.
fn with_misplaced_page(alloc: Global, next: &Next) -> Result<MemDisk, Fail> {
    let mut disk = with_table(alloc, 1, next)?;
    put(&mut disk, 7, 2, made(7, 3, PageKind::Bucket).bytes())?;
    Ok(disk)
}

// An unused page ends its chain, and what is behind it isn't read.
#[test]
fn a_chain_ends_at_an_unused_page(rt: HostRuntime) -> Result<(), Fail> {
    let mut disk = with_misplaced_page(rt.alloc(), &[1, 2, NO_PAGE, NO_PAGE, NO_PAGE])?;
    put(&mut disk, 7, 1, Page::zero().bytes())?;
    assert!(rt; recovered(rt.alloc(), &mut disk).is_ok());
    Ok(())
}

// A page of a chain is tested where it is read.
#[test]
fn a_chain_has_a_damaged_page(rt: HostRuntime) -> Result<(), Fail> {
    let mut disk = with_misplaced_page(rt.alloc(), &[2, NO_PAGE, NO_PAGE, NO_PAGE, NO_PAGE])?;
    assert!(rt; recovered(rt.alloc(), &mut disk) == damaged(7, 2, Why::Header));
    Ok(())
}
