//! A loss in the copy of pages where more chunks were copied in part than the second version of the
//! wire can tell of: 1,700 chunks, of each of which the first block was taken.
ghost use Rattle.clone_lay.specs.Sized.{AreSizes};

use crate::stuck::Stuck;
use clone_chunk::{PartialChunk, Spaces, StagePlan};
use clone_memdisk::MemDisk;
use clone_page::{Page, PageAt, Pages};
use clone_recipient::Reception;
use clone_tasks::LossAnswer;
use clone_wire::{Attempt, Frame, PageStage};
use std::alloc::{AllocError, Global};
use std::process::Abort;

const CHUNKS: u32 = 1_700;

/// So many the wire can tell of.
const TOLD: usize = 1_616;

fn stage(plan: StagePlan) -> Frame {
    let attempt = Attempt {
        session: 1,
        incarnation: 1,
    };
    Frame::Stage { attempt, plan }
}

// No file is copied, and so many pages once more.
fn no_files(alloc: Global) -> Frame {
    stage(StagePlan::FileCopy {
        chunks: 0,
        spaces: Spaces::new(alloc),
    })
}

fn many_pages(alloc: Global) -> Frame {
    stage(StagePlan::PageCopy {
        chunks: CHUNKS,
        position: u64::from(CHUNKS) * 64,
        spaces: Spaces::new(alloc),
    })
}

// The first block of a chunk. Which pages it has the recipient can't know.
fn first_block(alloc: Global, chunk: u32) -> Result<Frame, AllocError> {
    Ok(Frame::Pages {
        attempt: Attempt {
            session: 1,
            incarnation: 1,
        },
        stage: PageStage::PageCopy,
        chunk,
        block: 0,
        pages: Pages::new(vec![in alloc;
            page(0),
            page(1),
            page(2),
            page(3),
            page(4),
            page(5),
            page(6),
            page(7),
        ]?),
    })
}

fn page(number: u32) -> PageAt {
    PageAt {
        space: 1,
        number,
        page: Page::from_bytes(&[7; 4096]),
    }
}

/// A clone, and the disk that it is laid on.
#[derive(Drop)]
struct Copied {
    reception: Reception,
    disk: MemDisk,
    ghost sized: { AreSizes reception.sizes disk.contents.image },
}

impl Copied {
    fn begin(alloc: Global) -> Result<Copied, Stuck> {
        let mut disk = MemDisk::new(alloc);
        let reception = Reception::begin(alloc, &mut disk, 1, 1, 16, 2)?;
        Ok(Copied { reception, disk })
    }

    // The task sends what is due, and takes a frame.
    fn exchange(self, alloc: Global, frame: Frame) -> Result<Copied, Stuck> {
        let Copied {
            mut reception,
            mut disk,
        } = self;
        let _ = reception.next_send(alloc, 0, 0)?;
        let _ = reception.take(alloc, &mut disk, 0, frame)?;
        Ok(Copied { reception, disk })
    }

    // Of each chunk the first block is taken, with the first of them after EXECUTE is sent.
    fn take_first_blocks(self, alloc: Global) -> Result<Copied, Stuck> {
        let mut copied = self;
        for chunk in 0..CHUNKS {
            copied = copied.exchange(alloc, first_block(alloc, chunk)?)?;
        }
        Ok(copied)
    }
}

// The first 1,616 of the chunks keep their block, and the others are copied anew.
#[test]
fn more_partial_chunks_than_are_told(rt: HostRuntime) -> Result<(), Stuck> {
    let alloc = rt.alloc();
    let copied = Copied::begin(alloc)?
        .exchange(alloc, no_files(alloc))?
        .exchange(alloc, many_pages(alloc))?
        .take_first_blocks(alloc)?;
    let Copied {
        mut reception,
        disk: _,
    } = copied;
    if !reception.table().is_running() {
        return Err(Stuck);
    }
    assert!(rt; matches!(reception.lost(1), LossAnswer::Again { losses: 1 }));
    let sent = reception.next_send(alloc, 0, 0)?;
    match &sent {
        Some(Frame::Reinit2 { taken, .. }) => {
            let told = taken.partials().as_slice();
            assert!(rt; told.len() == TOLD);
            assert!(rt; told.first() == Some(&PartialChunk { chunk: 0, mask: 1 }));
            assert!(rt;
                told.last()
                    == Some(&PartialChunk {
                        chunk: 1_615,
                        mask: 1
                    })
            );
        }
        _ => assert!(rt; false),
    }
    let marks = reception.table().marks();
    assert!(rt; !marks.is_left(0, 0) && marks.is_left(0, 1));
    assert!(rt; !marks.is_left(1_615, 0) && marks.is_left(1_616, 0) && marks.is_left(1_699, 0));
    Ok(())
}
