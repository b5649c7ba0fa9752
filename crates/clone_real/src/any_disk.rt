ghost use Rattle.clone_real.specs.Kinds.{of_disk};

use clone_base::PAGE_SIZE;
use clone_outside::{DiskOrder, MARK_SIZE, PageDisk, Refusal};
use std::alloc::{AllocError, Global};

/// A page disk of one of two kinds: one in memory, or a real one. It is the disk that it has, call
/// by call.
#[derive(Drop)]
pub enum AnyDisk<M, F> {
    /// One in memory.
    Memory(M),
    /// A real one.
    Real(F),
}

impl<M: PageDisk, F: PageDisk> PageDisk for AnyDisk<M, F> {
    ghost use Rattle.clone_real.specs.Kinds.{of_disk};

    ghost state = { of_disk M.state F.state };

    fn faults(&self) -> u64 {
        match self {
            AnyDisk::Memory(disk) => disk.faults(),
            AnyDisk::Real(disk) => disk.faults(),
        }
    }

    fn spaces(&mut self, alloc: Global) -> Result<Vec<u32>, Refusal> {
        match self {
            AnyDisk::Memory(disk) => disk.spaces(alloc),
            AnyDisk::Real(disk) => disk.spaces(alloc),
        }
    }

    fn pages(&mut self, space: u32) -> Result<Option<u32>, Refusal> {
        match self {
            AnyDisk::Memory(disk) => disk.pages(space),
            AnyDisk::Real(disk) => disk.pages(space),
        }
    }

    fn read_page(
        &mut self,
        space: u32,
        page: u32,
        into: &mut [u8; PAGE_SIZE],
    ) -> Result<(), Refusal> {
        match self {
            AnyDisk::Memory(disk) => disk.read_page(space, page, into),
            AnyDisk::Real(disk) => disk.read_page(space, page, into),
        }
    }

    fn write_half(&mut self, space: u32, page: u32, from: &[u8; PAGE_SIZE]) -> Result<(), Refusal> {
        match self {
            AnyDisk::Memory(disk) => disk.write_half(space, page, from),
            AnyDisk::Real(disk) => disk.write_half(space, page, from),
        }
    }

    fn write_rest(&mut self, space: u32, page: u32, from: &[u8; PAGE_SIZE]) -> Result<(), Refusal> {
        match self {
            AnyDisk::Memory(disk) => disk.write_rest(space, page, from),
            AnyDisk::Real(disk) => disk.write_rest(space, page, from),
        }
    }

    fn extend(&mut self, space: u32, pages: u32) -> Result<(), Refusal> {
        match self {
            AnyDisk::Memory(disk) => disk.extend(space, pages),
            AnyDisk::Real(disk) => disk.extend(space, pages),
        }
    }

    fn create(&mut self, space: u32, pages: u32) -> Result<(), Refusal> {
        match self {
            AnyDisk::Memory(disk) => disk.create(space, pages),
            AnyDisk::Real(disk) => disk.create(space, pages),
        }
    }

    fn remove(&mut self, space: u32) -> Result<(), Refusal> {
        match self {
            AnyDisk::Memory(disk) => disk.remove(space),
            AnyDisk::Real(disk) => disk.remove(space),
        }
    }

    fn read_mark(&mut self) -> Result<Option<[u8; MARK_SIZE]>, Refusal> {
        match self {
            AnyDisk::Memory(disk) => disk.read_mark(),
            AnyDisk::Real(disk) => disk.read_mark(),
        }
    }

    fn write_mark(&mut self, mark: &[u8; MARK_SIZE]) -> Result<(), Refusal> {
        match self {
            AnyDisk::Memory(disk) => disk.write_mark(mark),
            AnyDisk::Real(disk) => disk.write_mark(mark),
        }
    }

    fn sync(&mut self) -> Result<(), Refusal> {
        match self {
            AnyDisk::Memory(disk) => disk.sync(),
            AnyDisk::Real(disk) => disk.sync(),
        }
    }

    fn order(&mut self, order: DiskOrder) -> Result<(), AllocError> {
        match self {
            AnyDisk::Memory(disk) => disk.order(order),
            AnyDisk::Real(disk) => disk.order(order),
        }
    }
}
