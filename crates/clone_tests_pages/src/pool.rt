//! The frame that makes way.

use clone_memdisk::MemDisk;
use clone_outside::PageDisk;
use clone_pool::Pool;
use std::test::Fail;

// The pages that are fetched, one after the other, and the frames that have them. Page 2 comes into
// the frame of page 1, since page 0 was used after it.
const FETCHES: [(u32, u32); 5] = [(0, 0), (1, 1), (0, 0), (2, 1), (0, 0)];

fn is_fetched(pool: &mut Pool, disk: &mut MemDisk, page: u32, at: u32) -> bool {
    pool.fetch(disk, 0, page) == Ok(at)
}

#[test]
fn the_page_used_least_recently_goes(rt: HostRuntime) -> Result<(), Fail> {
    let mut disk = MemDisk::new(rt.alloc());
    disk.create(0, 3)?;
    let mut pool = Pool::new(rt.alloc(), 2)?;
    for (page, at) in &FETCHES {
        assert!(rt; is_fetched(&mut pool, &mut disk, *page, *at));
    }
    Ok(())
}
