use clone_base::PAGE_SIZE;
use clone_outside::{MARK_SIZE, PageDisk, Refusal};
use clone_real::FileDisk;
use std::alloc::{AllocError, Global};
use std::fs::OpenOptions;
use std::test::Fail;
use std::{fs, process};

type Disk = FileDisk;

// The path of a directory that no other run uses.
fn place(rt: &HostRuntime, name: &str) -> Result<String, AllocError> {
    let number = process::id(rt.process());
    format!(in rt.alloc(); "/tmp/clone_real_{number}_{name}/disk")
}

fn remove(rt: &HostRuntime, place: &str) -> Result<(), Fail> {
    let above = place.len().saturating_sub(5);
    if let Some(above) = place.get(..above) {
        fs::remove_dir_all(rt, above)?;
    }
    Ok(())
}

fn write_in(rt: &HostRuntime, directory: &str, name: &str) -> Result<(), Fail> {
    let path = format!(in rt.alloc(); "{directory}/{name}")?;
    fs::write(rt, path.as_str(), "no page")?;
    Ok(())
}

// Calls of a disk in functions of their own, since each of its clauses stays with whoever calls it.
fn create(disk: &mut Disk, space: u32, pages: u32) -> Result<(), Refusal> {
    disk.create(space, pages)
}

fn extend(disk: &mut Disk, space: u32, pages: u32) -> Result<(), Refusal> {
    disk.extend(space, pages)
}

fn take_away(disk: &mut Disk, space: u32) -> Result<(), Refusal> {
    disk.remove(space)
}

fn pages(disk: &mut Disk, space: u32) -> Result<Option<u32>, Refusal> {
    disk.pages(space)
}

fn spaces(disk: &mut Disk, alloc: Global) -> Result<Vec<u32>, Refusal> {
    disk.spaces(alloc)
}

fn mark(disk: &mut Disk) -> Result<Option<[u8; MARK_SIZE]>, Refusal> {
    disk.read_mark()
}

fn set_mark(disk: &mut Disk, byte: u8) -> Result<(), Refusal> {
    disk.write_mark(&[byte; MARK_SIZE])
}

fn sync(disk: &mut Disk) -> Result<(), Refusal> {
    disk.sync()
}

fn write_half(disk: &mut Disk, space: u32, page: u32, byte: u8) -> Result<(), Refusal> {
    disk.write_half(space, page, &[byte; PAGE_SIZE])
}

fn write_rest(disk: &mut Disk, space: u32, page: u32, byte: u8) -> Result<(), Refusal> {
    disk.write_rest(space, page, &[byte; PAGE_SIZE])
}

// Whether a page is read whose halves have these bytes.
fn reads(disk: &mut Disk, space: u32, page: u32, halves: [u8; 2]) -> Result<bool, Refusal> {
    let mut bytes = [1; PAGE_SIZE];
    disk.read_page(space, page, &mut bytes)?;
    Ok([bytes[0], bytes[4_095]] == halves && [bytes[2_047], bytes[2_048]] == halves)
}

fn fails<T>(answer: &Result<T, Refusal>) -> bool {
    matches!(answer, Err(Refusal::Fault))
}

#[test]
fn a_new_disk_is_empty_and_touches_nothing(rt: HostRuntime) -> Result<(), Fail> {
    let path = place(&rt, "new")?;
    let mut disk = FileDisk::new(rt, path.as_str())?;
    assert!(rt; spaces(&mut disk, rt.alloc())?.is_empty());
    assert!(rt; pages(&mut disk, 1)?.is_none());
    assert!(rt; mark(&mut disk)?.is_none());
    extend(&mut disk, 1, 2)?;
    take_away(&mut disk, 1)?;
    sync(&mut disk)?;
    assert!(rt; fs::metadata(&rt, path.as_str()).is_err());
    Ok(())
}

fn write_pages(disk: &mut Disk) -> Result<(), Refusal> {
    create(disk, 3, 2)?;
    create(disk, 20, 0)?;
    write_half(disk, 3, 1, 7)?;
    write_rest(disk, 3, 1, 8)?;
    extend(disk, 3, 4)?;
    extend(disk, 3, 1)?;
    set_mark(disk, 5)?;
    sync(disk)
}

#[test]
fn what_was_written_is_read_by_another(rt: HostRuntime) -> Result<(), Fail> {
    let path = place(&rt, "written")?;
    let mut disk = FileDisk::new(rt, path.as_str())?;
    write_pages(&mut disk)?;
    let mut other = FileDisk::new(rt, path.as_str())?;
    assert!(rt; reads(&mut other, 3, 1, [7, 8])?);
    assert!(rt; reads(&mut other, 3, 3, [0, 0])?);
    assert_eq!(rt; pages(&mut other, 3), Ok(Some(4)));
    assert!(rt; mark(&mut other)? == Some([5; MARK_SIZE]));
    remove(&rt, path.as_str())
}

fn write_foreign_files(rt: &HostRuntime, directory: &str) -> Result<(), Fail> {
    for name in [
        "space_01.pages",
        "space_+2.pages",
        "space_.pages",
        "space_4294967296.pages",
    ] {
        write_in(rt, directory, name)?;
    }
    Ok(())
}

#[test]
fn a_foreign_file_is_no_space(rt: HostRuntime) -> Result<(), Fail> {
    let path = place(&rt, "foreign")?;
    let mut disk = FileDisk::new(rt, path.as_str())?;
    create(&mut disk, 4_294_967_040, 1)?;
    create(&mut disk, 0, 1)?;
    create(&mut disk, 1, 1)?;
    take_away(&mut disk, 1)?;
    write_foreign_files(&rt, path.as_str())?;
    let all = spaces(&mut disk, rt.alloc())?;
    assert!(rt; all.as_slice() == [0, 4_294_967_040].as_slice());
    remove(&rt, path.as_str())
}

#[test]
fn a_page_that_is_not_there_is_a_fault(rt: HostRuntime) -> Result<(), Fail> {
    let path = place(&rt, "absent")?;
    let mut disk = FileDisk::new(rt, path.as_str())?;
    create(&mut disk, 1, 1)?;
    assert!(rt; fails(&reads(&mut disk, 1, 1, [0, 0])));
    assert!(rt; fails(&reads(&mut disk, 2, 0, [0, 0])));
    assert!(rt; fails(&write_half(&mut disk, 1, 1, 0)));
    assert!(rt; fails(&write_rest(&mut disk, 2, 0, 0)));
    assert_eq!(rt; disk.faults(), 4);
    remove(&rt, path.as_str())
}

#[test]
fn files_of_wrong_lengths_are_faults(rt: HostRuntime) -> Result<(), Fail> {
    let path = place(&rt, "lengths")?;
    let mut disk = FileDisk::new(rt, path.as_str())?;
    create(&mut disk, 1, 1)?;
    write_in(&rt, path.as_str(), "space_2.pages")?;
    write_in(&rt, path.as_str(), "mark")?;
    assert!(rt; fails(&pages(&mut disk, 2)));
    assert!(rt; fails(&extend(&mut disk, 2, 9)));
    assert!(rt; fails(&mark(&mut disk)));
    assert_eq!(rt; disk.faults(), 3);
    remove(&rt, path.as_str())
}

#[test]
fn a_page_that_is_read_in_part_is_a_fault(rt: HostRuntime) -> Result<(), Fail> {
    let path = place(&rt, "part")?;
    let mut disk = FileDisk::new(rt, path.as_str())?;
    create(&mut disk, 1, 2)?;
    let file = format!(in rt.alloc(); "{path}/space_1.pages")?;
    let length = PAGE_SIZE as u64 + 2_048;
    OpenOptions::new()
        .write(true)
        .open(&rt, file.as_str())?
        .set_len(length)?;
    assert!(rt; reads(&mut disk, 1, 0, [0, 0])?);
    assert!(rt; fails(&reads(&mut disk, 1, 1, [0, 0])));
    assert_eq!(rt; disk.faults(), 1);
    remove(&rt, path.as_str())
}

#[test]
fn a_sync_without_its_directory_is_a_fault(rt: HostRuntime) -> Result<(), Fail> {
    let path = place(&rt, "away")?;
    let mut disk = FileDisk::new(rt, path.as_str())?;
    create(&mut disk, 1, 1)?;
    fs::remove_dir_all(&rt, path.as_str())?;
    assert!(rt; fails(&sync(&mut disk)));
    assert!(rt; fails(&sync(&mut disk)));
    fs::create_dir(&rt, path.as_str())?;
    sync(&mut disk)?;
    assert_eq!(rt; disk.faults(), 2);
    remove(&rt, path.as_str())
}

#[test]
fn a_directory_that_the_system_cannot_sync_is_a_fault(rt: HostRuntime) -> Result<(), Fail> {
    let mut disk = FileDisk::new(rt, "/proc")?;
    sync(&mut disk)?;
    assert!(rt; fails(&create(&mut disk, 1, 1)));
    assert!(rt; fails(&sync(&mut disk)));
    assert_eq!(rt; disk.faults(), 2);
    Ok(())
}

#[test]
fn a_path_that_is_no_directory_is_a_fault(rt: HostRuntime) -> Result<(), Fail> {
    let path = place(&rt, "file")?;
    let mut disk = FileDisk::new(rt, path.as_str())?;
    create(&mut disk, 1, 1)?;
    let file = format!(in rt.alloc(); "{path}/space_1.pages")?;
    let mut in_file = FileDisk::new(rt, file.as_str())?;
    assert!(rt; fails(&create(&mut in_file, 1, 1)));
    assert!(rt; fails(&set_mark(&mut in_file, 0)));
    assert!(rt; fails(&take_away(&mut in_file, 1)));
    assert!(rt; fails(&spaces(&mut in_file, rt.alloc())));
    assert_eq!(rt; in_file.faults(), 4);
    remove(&rt, path.as_str())
}

#[test]
fn a_directory_that_takes_no_file_is_a_fault(rt: HostRuntime) -> Result<(), Fail> {
    let mut disk = FileDisk::new(rt, "/proc/no_such_disk")?;
    assert!(rt; fails(&create(&mut disk, 1, 1)));
    assert_eq!(rt; disk.faults(), 1);
    Ok(())
}
