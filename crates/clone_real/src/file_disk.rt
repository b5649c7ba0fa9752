ghost use Rattle.std.specs.Prelude.{◌≡◌, ◌≢◌, Err, IfOk, IsErr, OnErr, OnOk};
ghost use Rattle.std.specs.List.Sorted.{IsStrictlyIncreasing};
ghost use Rattle.clone_outside.specs.Disk.{half_written, rest_written, with_extended, with_created, with_removed, with_mark};
ghost use Rattle.clone_outside.specs.DiskCalls.{Asks, IsGiven, Reads, Syncs, Takes, Writes};
ghost use Rattle.clone_outside.specs.Stops as change;
ghost use Rattle.clone_real.specs.Real.{after, calm, state_of};

use crate::directory::Directory;
use crate::fault_count::FaultCount;
use clone_base::PAGE_SIZE;
use clone_outside::{DiskOrder, MARK_SIZE, PageDisk, Refusal};
use std::alloc::{AllocError, Global};
use std::marker::Model;

/// A page disk in a directory: the file `mark` holds the mark, and `space_N.pages` the pages of
/// space N. It touches nothing before its first call, and the files of spaces that were used stay
/// open.
///
/// A directory that is missing counts as empty for reading, and is made by the first call that
/// writes. A path that is no directory, a file that isn't whole pages, a page that isn't there, and
/// each error of the system is a fault, which is counted. Contracts know nothing of what it holds.
#[derive(Drop)]
pub struct FileDisk {
    directory: Directory,
    faults: FaultCount,
    orders: Vec<DiskOrder>,
}

impl Model for FileDisk {
    ghost use Rattle.clone_real.specs.Real.{FileDiskModel};

    ghost Value = { FileDiskModel };

    ghost view = { λ d. record { faults = d.faults; orders = d.orders.items } };
}

impl FileDisk {
    /// The disk in the directory at this path. The error is that there is no memory for the path.
    pub fn new(rt: HostRuntime, directory: &str) -> Result<FileDisk, AllocError>
        ensures { IfOk result (λ disk. disk ≡ calm) }
    {
        let alloc = rt.alloc();
        Ok(FileDisk {
            directory: Directory::new(rt, directory)?,
            faults: FaultCount::new(),
            orders: Vec::new(alloc),
        })
    }
}

impl PageDisk for FileDisk {
    ghost use Rattle.clone_real.specs.Real.{state_of};

    ghost state = { state_of };

    fn faults(&self) -> u64 {
        self.faults.get()
    }

    /// The spaces by the names of the files.
    fn spaces(&mut self, alloc: Global) -> Result<Vec<u32>, Refusal>
        ensures ascending { IfOk result (λ all. IsStrictlyIncreasing all.items) }
        ensures asks { Asks (state_of self.old) (state_of self.new) result }

        ensures count { self.new ≡ after self.old result }
    {
        self.faults.note(self.directory.spaces(alloc))
    }

    /// A file that isn't whole pages is a fault.
    fn pages(&mut self, space: u32) -> Result<Option<u32>, Refusal>
        ensures asks { Asks (state_of self.old) (state_of self.new) result }

        ensures count { self.new ≡ after self.old result }
    {
        self.faults.note(self.directory.pages(space))
    }

    /// Reads a page by one read of 4,096 bytes. A page that isn't there is a fault.
    fn read_page(
        &mut self,
        space: u32,
        page: u32,
        into: &mut [u8; PAGE_SIZE],
    ) -> Result<(), Refusal>
        ensures memory { result ≢ Err Refusal.NoMemory }
        ensures reads { Reads (IsErr result) (state_of self.old) (state_of self.new) }

        ensures count { self.new ≡ after self.old result }
    {
        self.faults
            .note(self.directory.read_page(space, page, into))
    }

    /// Writes the first half of a page by one write. A page that isn't there is a fault.
    fn write_half(&mut self, space: u32, page: u32, from: &[u8; PAGE_SIZE]) -> Result<(), Refusal>
        ensures writes { Writes change.WriteHalf space page (half_written from.now)
            (state_of self.old) (state_of self.new) result }

        ensures count { self.new ≡ after self.old result }
    {
        self.faults
            .note(self.directory.write_half(space, page, from))
    }

    /// Writes the other half of a page by one write. A page that isn't there is a fault.
    fn write_rest(&mut self, space: u32, page: u32, from: &[u8; PAGE_SIZE]) -> Result<(), Refusal>
        ensures writes { Writes change.WriteRest space page (rest_written from.now)
            (state_of self.old) (state_of self.new) result }

        ensures count { self.new ≡ after self.old result }
    {
        self.faults
            .note(self.directory.write_rest(space, page, from))
    }

    fn extend(&mut self, space: u32, pages: u32) -> Result<(), Refusal>
        ensures takes { Takes (change.Extend space pages) (λ m. with_extended m space pages)
            (state_of self.old) (state_of self.new) result }

        ensures count { self.new ≡ after self.old result }
    {
        self.faults.note(self.directory.extend(space, pages))
    }

    fn create(&mut self, space: u32, pages: u32) -> Result<(), Refusal>
        ensures takes { Takes (change.Create space pages) (λ m. with_created m space pages)
            (state_of self.old) (state_of self.new) result }

        ensures count { self.new ≡ after self.old result }
    {
        self.faults.note(self.directory.create(space, pages))
    }

    fn remove(&mut self, space: u32) -> Result<(), Refusal>
        ensures memory { result ≢ Err Refusal.NoMemory }
        ensures takes { Takes (change.Remove space) (λ m. with_removed m space)
            (state_of self.old) (state_of self.new) result }

        ensures count { self.new ≡ after self.old result }
    {
        self.faults.note(self.directory.remove(space))
    }

    /// A file of the mark that hasn't 64 bytes is a fault.
    fn read_mark(&mut self) -> Result<Option<[u8; MARK_SIZE]>, Refusal>
        ensures asks { Asks (state_of self.old) (state_of self.new) result }

        ensures count { self.new ≡ after self.old result }
    {
        self.faults.note(self.directory.read_mark())
    }

    /// Lets a new file take the mark's name, so that no mark is half old and half new.
    fn write_mark(&mut self, mark: &[u8; MARK_SIZE]) -> Result<(), Refusal>
        ensures takes { Takes (change.WriteMark mark.now) (λ m. with_mark m mark.now)
            (state_of self.old) (state_of self.new) result }

        ensures count { self.new ≡ after self.old result }
    {
        self.faults.note(self.directory.write_mark(mark))
    }

    /// Syncs each file that was written since the last time, and the directory where a file was
    /// made or removed.
    fn sync(&mut self) -> Result<(), Refusal>
        ensures syncs { Syncs (state_of self.old) (state_of self.new) result }

        ensures count { self.new ≡ after self.old result }
    {
        self.faults.note(self.directory.sync())
    }

    /// Keeps the order for contracts, and does nothing on it.
    fn order(&mut self, order: DiskOrder) -> Result<(), AllocError>
        ensures given { OnOk result (IsGiven order (state_of self.old) (state_of self.new)) }
        ensures refused { OnErr result (state_of self.new ≡ state_of self.old) }
    {
        self.orders.push(order)?;
        Ok(())
    }
}
