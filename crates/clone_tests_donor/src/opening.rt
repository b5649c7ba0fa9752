//! What a donor does with the disk that it is opened over.

use clone_donor::Donor;
use clone_engine::{OpenCause, OpenRefusal};
use clone_memdisk::MemDisk;
use clone_model::Config;
use clone_outside::{DiskOrder, MARK_SIZE, PageDisk};
use std::alloc::Global;
use std::test::Fail;

const CONFIG: Config = Config {
    pool: 16,
    ring: 65_536,
};

// Opens a donor over a disk, and gives the disk back with the cause against that.
fn open_over(alloc: Global, disk: MemDisk) -> (Option<OpenCause>, MemDisk) {
    match Donor::open(alloc, disk, CONFIG) {
        Ok(donor) => {
            let (disk, _) = donor.into_disk();
            (None, disk)
        }
        Err(refusal) => {
            let OpenRefusal { cause, disk } = refusal;
            (Some(cause), disk)
        }
    }
}

// Opening makes three calls of the disk. Where one of them fails nothing is made, and the next time
// the donor opens. The fourth call comes after it.
#[test]
fn a_call_of_opening_fails(rt: HostRuntime) -> Result<(), Fail> {
    for call in 1..4 {
        let mut disk = MemDisk::new(rt.alloc());
        disk.order(DiskOrder::FailAt { call })?;
        let (cause, mut disk) = open_over(rt.alloc(), disk);
        assert_eq!(rt; (cause, disk.pages(0)?), (Some(OpenCause::DiskFault), None));
        disk.order(DiskOrder::FailAt { call: 4 })?;
        let (cause, mut disk) = open_over(rt.alloc(), disk);
        assert_eq!(rt; (cause, disk.pages(0).is_err()), (None, true));
        assert_eq!(rt; disk.pages(0)?, Some(257));
    }
    Ok(())
}

// Over a disk that has a space or a mark nothing is opened.
#[test]
fn a_disk_in_use(rt: HostRuntime) -> Result<(), Fail> {
    for has_space in [true, false] {
        let mut disk = MemDisk::new(rt.alloc());
        if has_space {
            disk.create(5, 1)?;
        } else {
            disk.write_mark(&[0; MARK_SIZE])?;
        }
        let (cause, mut disk) = open_over(rt.alloc(), disk);
        assert_eq!(rt; (cause, disk.pages(0)?), (Some(OpenCause::NotEmpty), None));
    }
    Ok(())
}
