//! A requester, which lays what it gets of a clone on a disk of its own.
ghost use Rattle.clone_lay.specs.Sized.{AreSizes};
ghost use Rattle.clone_base.specs.declared.limits.TheConstants.{LSN_LIMIT, PAGE_SIZE};
ghost use Rattle.std.specs.Prelude.{◌≡◌, ◌≤◌, ◌+◌, ◌-◌, ◌%◌, IsTrue};

use clone_base::{Counts, LSN_LIMIT, PAGE_SIZE};
use clone_calls::Block;
use clone_lay::{begin_copy, complete, lay_page, lay_redo, make_room, size_laws};
use clone_memdisk::MemDisk;
use clone_outside::CloneEnd;
use clone_page::PageAt;
use clone_session::StageInfo;
use std::alloc::Global;
use std::test::Fail;

/// A disk with as much of a clone as has come, and the sizes of its spaces.
#[derive(Drop)]
pub struct Requester {
    disk: MemDisk,
    sizes: Counts,
    ghost sized: { AreSizes sizes disk.contents.image },
}

impl Requester {
    /// The copy begins on an empty disk, with room for the spaces of the copy of files.
    pub fn begin(alloc: Global, info: &StageInfo) -> Result<Requester, Fail> {
        Requester::on_empty_disk(alloc)
            .with_mark(info.session)?
            .with_rooms(info)
    }

    /// Makes room for the spaces that a stage lists.
    pub fn with_rooms(self, info: &StageInfo) -> Result<Requester, Fail> {
        let mut requester = self;
        for space in info.plan.spaces() {
            requester = requester.with_room(space.space, space.pages)?;
        }
        Ok(requester)
    }

    fn on_empty_disk(alloc: Global) -> Requester {
        size_laws();
        Requester {
            disk: MemDisk::new(alloc),
            sizes: Counts::new(alloc),
        }
    }

    // Marks the disk as that of a copy in progress.
    fn with_mark(self, session: u64) -> Result<Requester, Fail> {
        let Requester { mut disk, sizes } = self;
        begin_copy(&mut disk, session)?;
        Ok(Requester { disk, sizes })
    }

    // Makes room for so many pages of a space.
    fn with_room(self, space: u32, pages: u32) -> Result<Requester, Fail> {
        let Requester {
            mut disk,
            mut sizes,
        } = self;
        make_room(&mut disk, &mut sizes, space, pages)?;
        Ok(Requester { disk, sizes })
    }

    /// Lays a block. Redo lies after this checkpoint.
    pub fn lay(self, checkpoint: u64, block: &Block) -> Result<Requester, Fail> {
        match block {
            Block::Pages(pages) => self.lay_pages(pages.as_slice()),
            Block::Redo { from, bytes } => self.lay_redo(checkpoint, *from, bytes.as_slice()),
        }
    }

    // Lays pages, each at its place.
    fn lay_pages(self, pages: &[PageAt]) -> Result<Requester, Fail> {
        let mut requester = self;
        for page in pages {
            requester = requester.lay_page(page)?;
        }
        Ok(requester)
    }

    fn lay_page(self, page: &PageAt) -> Result<Requester, Fail> {
        let Requester {
            mut disk,
            mut sizes,
        } = self;
        if page.number == u32::MAX {
            return Err(Fail::from("a page at no place"));
        }
        lay_page(
            &mut disk,
            &mut sizes,
            page.space,
            page.number,
            page.page.bytes(),
        )?;
        Ok(Requester { disk, sizes })
    }

    fn lay_redo(self, checkpoint: u64, from: u64, bytes: &[u8]) -> Result<Requester, Fail> {
        let Requester {
            mut disk,
            mut sizes,
        } = self;
        if !is_behind(checkpoint, from, bytes.len() as u64) {
            return Err(Fail::from("redo at no offset"));
        }
        lay_redo(&mut disk, &mut sizes, checkpoint, from, bytes)?;
        Ok(Requester { disk, sizes })
    }

    /// The copy is complete, as the donor told where it ends. The disk is answered.
    pub fn complete(self, info: &StageInfo) -> Result<MemDisk, Fail> {
        let Requester { mut disk, sizes: _ } = self;
        let (checkpoint, lsn) = (info.plan.checkpoint(), info.plan.lsn());
        if lsn < checkpoint || LSN_LIMIT <= lsn {
            return Err(Fail::from("no end of a clone"));
        }
        let end = CloneEnd {
            session: info.session,
            checkpoint,
            lsn,
            position: info.plan.position(),
        };
        complete(&mut disk, &end)?;
        Ok(disk)
    }
}

// Whether so many bytes of redo from an LSN on lie whole pages after a checkpoint, within the log.
fn is_behind(checkpoint: u64, from: u64, length: u64) -> bool
    ensures { IsTrue result → (checkpoint ≤ from) × ((from - checkpoint) % PAGE_SIZE ≡ 0)
        × (from + length ≤ LSN_LIMIT) }
{
    if from < checkpoint || LSN_LIMIT <= from {
        return false;
    }
    (from - checkpoint) % PAGE_SIZE as u64 == 0 && length <= LSN_LIMIT - from
}
