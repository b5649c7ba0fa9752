use clone_memdisk::MemDisk;
use clone_outside::{DiskOrder, PageDisk, Refusal};
use std::alloc::Global;

// The first and the last byte of each half of a page.
fn halves(disk: &mut MemDisk, space: u32, number: u32) -> Result<[u8; 4], Refusal> {
    let mut page = [99; 4096];
    disk.read_page(space, number, &mut page)?;
    Ok([page[0], page[2047], page[2048], page[4095]])
}

#[test]
fn a_page_is_written_in_halves(rt: HostRuntime) -> Result<(), Refusal> {
    let mut disk = MemDisk::new(rt.alloc());
    disk.create(7, 2)?;
    disk.write_half(7, 1, &[3; 4096])?;
    assert!(rt; halves(&mut disk, 7, 1) == Ok([3, 3, 0, 0]));
    disk.order(DiskOrder::Tear { byte: 255 })?;
    assert!(rt; halves(&mut disk, 7, 1) == Ok([255; 4]));
    disk.write_rest(7, 1, &[4; 4096])?;
    assert!(rt; halves(&mut disk, 7, 1) == Ok([3, 3, 4, 4]));
    assert!(rt; halves(&mut disk, 7, 0) == Ok([0; 4]));
    Ok(())
}

// The second and the third call from the order on, whatever they are.
#[test]
fn the_named_calls_fail(rt: HostRuntime) -> Result<(), Refusal> {
    let mut disk = MemDisk::new(rt.alloc());
    disk.order(DiskOrder::FailAt { call: 2 })?;
    disk.order(DiskOrder::FailAt { call: 3 })?;
    for outcome in [Ok(()), Err(Refusal::Fault), Err(Refusal::Fault), Ok(())] {
        assert!(rt; disk.sync() == outcome);
    }
    assert!(rt; disk.faults() == 2);
    Ok(())
}

// Makes the spaces 9 and 2. An extension leaves a space as it is that has more pages, or that isn't
// there.
fn make_spaces(disk: &mut MemDisk) -> Result<(), Refusal> {
    disk.create(9, 1)?;
    disk.create(4, 1)?;
    disk.create(2, 3)?;
    disk.extend(2, 5)?;
    disk.extend(2, 4)?;
    disk.extend(3, 4)?;
    disk.remove(4)
}

// Whether the disk has these spaces, in this order.
fn has(alloc: Global, disk: &mut MemDisk, spaces: &[u32]) -> Result<bool, Refusal> {
    Ok(disk.spaces(alloc)?.as_slice() == spaces)
}

#[test]
fn spaces_come_and_go(rt: HostRuntime) -> Result<(), Refusal> {
    let mut disk = MemDisk::new(rt.alloc());
    make_spaces(&mut disk)?;
    assert!(rt; has(rt.alloc(), &mut disk, &[2, 9])?);
    assert!(rt; disk.pages(2) == Ok(Some(5)));
    Ok(())
}

// A disk that records, with a synced space of two pages of 1, of which page 1 is then written with
// 2, and a space that came since. It stops at once, with this choice, and goes on.
fn stopped(alloc: Global, choice: u8) -> Result<MemDisk, Refusal> {
    let mut disk = MemDisk::recording(alloc);
    disk.create(7, 2)?;
    for number in 0..2 {
        disk.write_half(7, number, &[1; 4096])?;
        disk.write_rest(7, number, &[1; 4096])?;
    }
    disk.sync()?;
    disk.write_half(7, 1, &[2; 4096])?;
    disk.write_rest(7, 1, &[2; 4096])?;
    disk.create(9, 1)?;
    disk.write_mark(&[5; 64])?;
    disk.order(DiskOrder::Stop { calls: 0, choice })?;
    Ok(disk)
}

#[test]
fn a_stop_keeps_what_its_choice_says(rt: HostRuntime) -> Result<(), Refusal> {
    let kept = [[1, 1, 1, 1], [2, 2, 2, 2], [2, 2, 1, 1], [255; 4]];
    for (choice, page) in (0..4).zip(kept) {
        let mut disk = stopped(rt.alloc(), choice)?;
        assert!(rt; disk.sync() == Err(Refusal::Fault));
        assert!(rt; disk.write_half(7, 0, &[3; 4096]) == Err(Refusal::Fault));
        disk.order(DiskOrder::Again)?;
        assert!(rt; halves(&mut disk, 7, 0) == Ok([1; 4]));
        assert!(rt; halves(&mut disk, 7, 1) == Ok(page), "choice {choice}");
        let there = choice != 0;
        assert!(rt; disk.pages(9) == Ok(if there { Some(1) } else { None }));
        assert!(rt; disk.read_mark()?.is_some() == there);
    }
    Ok(())
}

// The second stop waits for the first, and counts its calls from there. What the first left stays.
#[test]
fn stops_come_one_after_the_other(rt: HostRuntime) -> Result<(), Refusal> {
    let mut disk = stopped(rt.alloc(), 2)?;
    disk.order(DiskOrder::Stop {
        calls: 1,
        choice: 0,
    })?;
    assert!(rt; disk.remove(9) == Err(Refusal::Fault));
    disk.order(DiskOrder::Again)?;
    assert!(rt; disk.remove(9) == Ok(()));
    assert!(rt; disk.sync() == Err(Refusal::Fault));
    disk.order(DiskOrder::Again)?;
    assert!(rt; disk.pages(9) == Ok(Some(1)));
    assert!(rt; halves(&mut disk, 7, 1) == Ok([2, 2, 1, 1]));
    disk.order(DiskOrder::Again)?;
    assert!(rt; disk.sync() == Ok(()));
    Ok(())
}

// A disk that doesn't record does nothing on these orders.
#[test]
fn other_disks_never_stop(rt: HostRuntime) -> Result<(), Refusal> {
    let mut disk = MemDisk::new(rt.alloc());
    disk.create(7, 2)?;
    disk.order(DiskOrder::Stop {
        calls: 0,
        choice: 0,
    })?;
    assert!(rt; disk.sync() == Ok(()));
    disk.order(DiskOrder::Again)?;
    assert!(rt; disk.pages(7) == Ok(Some(2)));
    Ok(())
}
