ghost use Rattle.std.specs.Prelude.{◌≡◌};
ghost use Rattle.std.specs.FinMap as finite;

use clone_base::{Counts, REDO_SPACE};
use clone_lay::{REDO_BLOCK, begin_copy, complete, lay_page, lay_redo, make_room, size_laws};
use clone_memdisk::MemDisk;
use clone_outside::{CloneEnd, DiskOrder, Mark, PageDisk, Refusal};
use std::alloc::Global;

// The first and the last byte of a page.
fn ends_of(disk: &mut MemDisk, space: u32, number: u32) -> Result<(u8, u8), Refusal> {
    let mut page = [99; 4096];
    disk.read_page(space, number, &mut page)?;
    Ok((page[0], page[4095]))
}

// Pages in any order. The first is laid past the end of a space that isn't there, the second past
// the end of one that is.
fn lay_pages(alloc: Global, disk: &mut MemDisk) -> Result<(), Refusal>
    requires { disk.old.contents.image.spaces ≡ finite.empty }
{
    let mut sizes = Counts::new(alloc);
    size_laws();
    lay_page(disk, &mut sizes, 1, 2, &[7; 4096])?;
    lay_page(disk, &mut sizes, 1, 4, &[8; 4096])?;
    lay_page(disk, &mut sizes, 1, 0, &[5; 4096])
}

#[test]
fn pages_past_the_end(rt: HostRuntime) -> Result<(), Refusal> {
    let mut disk = MemDisk::new(rt.alloc());
    lay_pages(rt.alloc(), &mut disk)?;
    assert!(rt; disk.pages(1) == Ok(Some(5)));
    for (number, byte) in (0..).zip([5, 0, 7, 0, 8]) {
        assert!(rt; ends_of(&mut disk, 1, number) == Ok((byte, byte)));
    }
    Ok(())
}

// Redo of five pages, the last of which has five bytes. Its blocks come in any order.
fn lay_blocks(alloc: Global, disk: &mut MemDisk) -> Result<(), Refusal>
    requires { disk.old.contents.image.spaces ≡ finite.empty }
{
    let mut sizes = Counts::new(alloc);
    size_laws();
    lay_redo(disk, &mut sizes, 8192, 24576, &[4; 5])?;
    lay_redo(disk, &mut sizes, 8192, 8192, &[6; REDO_BLOCK])
}

#[test]
fn redo_of_two_blocks(rt: HostRuntime) -> Result<(), Refusal> {
    let mut disk = MemDisk::new(rt.alloc());
    lay_blocks(rt.alloc(), &mut disk)?;
    assert!(rt; disk.pages(REDO_SPACE) == Ok(Some(5)));
    for (number, ends) in (0..).zip([(6, 6), (6, 6), (6, 6), (6, 6), (4, 0)]) {
        assert!(rt; ends_of(&mut disk, REDO_SPACE, number) == Ok(ends));
    }
    Ok(())
}

// A clone of two pages and two bytes of redo, on a disk of which a call fails, and then the mark.
fn copied(alloc: Global, call: u64) -> Result<(Result<(), Refusal>, Option<Mark>), Refusal> {
    let mut disk = MemDisk::new(alloc);
    disk.order(DiskOrder::FailAt { call })?;
    let outcome = copy_to(alloc, &mut disk);
    match disk.read_mark()? {
        Some(bytes) => Ok((outcome, Mark::from_bytes(&bytes))),
        None => Ok((outcome, None)),
    }
}

// Fifteen calls: two of them for the mark, one for room, two for each page, three for the redo, and
// five at the end.
fn copy_to(alloc: Global, disk: &mut MemDisk) -> Result<(), Refusal>
    requires { disk.old.contents.image.spaces ≡ finite.empty }
{
    let mut sizes = Counts::new(alloc);
    size_laws();
    begin_copy(disk, 3)?;
    make_room(disk, &mut sizes, 1, 2)?;
    lay_page(disk, &mut sizes, 1, 0, &[7; 4096])?;
    lay_page(disk, &mut sizes, 1, 1, &[7; 4096])?;
    lay_redo(disk, &mut sizes, 8192, 8192, &[1, 2])?;
    complete(disk, &an_end())
}

fn an_end() -> CloneEnd {
    CloneEnd {
        session: 3,
        checkpoint: 8192,
        lsn: 8194,
        position: 0,
    }
}

#[test]
fn each_call_fails(rt: HostRuntime) -> Result<(), Refusal> {
    let begun = Some(Mark::InProgress { session: 3 });
    let numbered = Some(Mark::Ending(an_end()));
    let ended = Some(Mark::Complete(an_end()));
    for call in 1..16 {
        let mark = match call {
            1 => None,
            13 | 14 => numbered,
            15 => ended,
            _ => begun,
        };
        assert!(rt;
            copied(rt.alloc(), call)? == (Err(Refusal::Fault), mark),
            "call {call}"
        );
    }
    assert!(rt; copied(rt.alloc(), 17)? == (Ok(()), ended));
    Ok(())
}

// A clone on a disk that stops after so many calls, and the mark that is left.
fn stopped(alloc: Global, calls: u64, choice: u8) -> Result<Option<[u8; 64]>, Refusal> {
    let mut disk = MemDisk::recording(alloc);
    disk.order(DiskOrder::Stop { calls, choice })?;
    let _ = copy_to(alloc, &mut disk);
    disk.order(DiskOrder::Again)?;
    disk.read_mark()
}

// The complete mark is left where it was written before the stop, and where its sync came before
// the stop it is always.
#[test]
fn each_call_may_be_the_last(rt: HostRuntime) -> Result<(), Refusal> {
    let ended = Mark::Complete(an_end()).to_bytes();
    for calls in 0..16 {
        for choice in 0..4 {
            let written = calls >= 15 || (calls == 14 && choice != 0);
            let is_left = stopped(rt.alloc(), calls, choice)? == Some(ended);
            assert!(rt; is_left == written, "{calls} {choice}");
        }
    }
    Ok(())
}
