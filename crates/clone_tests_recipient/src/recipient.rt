//! What a recipient takes, over a disk in memory. A space of one page is copied, then two of its
//! pages that were changed, then a redo of five bytes.
ghost use Rattle.clone_lay.specs.Sized.{AreSizes};

use crate::stuck::Stuck;
use clone_base::REDO_SPACE;
use clone_chunk::{CopyStage, RedoBytes, Spaces, StagePlan};
use clone_memdisk::MemDisk;
use clone_outside::{CloneEnd, Mark, PageDisk};
use clone_page::{Page, PageAt, Pages};
use clone_recipient::{Reception, TakeRefusal};
use clone_tasks::Phase;
use clone_wire::{Attempt, Frame, PageStage};
use std::alloc::{AllocError, Global};
use std::process::Abort;

/// What a donor may send to task 0.
#[derive(Clone, Copy)]
enum Sent {
    /// Space 1 with so many pages, in so many chunks.
    Files { chunks: u32, pages: u32 },
    PageCopy,
    RedoCopy { checkpoint: u64, lsn: u64 },
    Done,
    /// Page 0 or 1 of space 1, in an incarnation.
    Block(u32, PageStage, u32),
    /// Two pages of space 1 that were changed.
    Changed(u32, u32),
    /// Five bytes of redo from an LSN on.
    Redo(u64),
    End(CopyStage),
    /// What no donor sends.
    Exit,
}

/// What happens to a clone of one task.
#[derive(Clone, Copy)]
enum Step {
    /// It sends what is due.
    Sends,
    /// It awaits this.
    Awaits(Sent),
    /// It doesn't await this.
    Bars(Sent),
    /// It takes this.
    Takes(Sent),
    /// Its status is so.
    Shows(&'static str),
}

use Sent::{Block, Changed, Done, End, Exit, Files, PageCopy, Redo, RedoCopy};
use Step::{Awaits, Bars, Sends, Shows, Takes};

const FILES: Sent = Files {
    chunks: 1,
    pages: 1,
};

const FIRST_PAGE: Sent = Block(1, PageStage::FileCopy, 0);

const REDO: Sent = RedoCopy {
    checkpoint: 8192,
    lsn: 8197,
};

// The recipient awaits files, and no other frame.
const AFTER_INIT: [Step; 12] = [
    Bars(FILES),
    Sends,
    Awaits(FILES),
    Awaits(Files {
        chunks: 2,
        pages: 65,
    }),
    Bars(Files {
        chunks: 2,
        pages: 1,
    }),
    Bars(Files {
        chunks: 0,
        pages: 0,
    }),
    Bars(Files {
        chunks: 1_025,
        pages: 65_537,
    }),
    Bars(PageCopy),
    Bars(REDO),
    Bars(FIRST_PAGE),
    Bars(End(CopyStage::FileCopy)),
    Bars(Exit),
];

// A block is taken once, at its own place, and in its own incarnation.
const IN_ONE_BLOCK: [Step; 9] = [
    Sends,
    Takes(FILES),
    Bars(FIRST_PAGE),
    Sends,
    Bars(Block(1, PageStage::FileCopy, 1)),
    Bars(Block(1, PageStage::PageCopy, 0)),
    Bars(Block(2, PageStage::FileCopy, 0)),
    Takes(FIRST_PAGE),
    Bars(FIRST_PAGE),
];

// All stages, but for the marks of the disk.
const A_CLONE: [Step; 26] = [
    Sends,
    Takes(FILES),
    Sends,
    Takes(FIRST_PAGE),
    Takes(End(CopyStage::FileCopy)),
    Shows(IN_FILES),
    Sends,
    Takes(PageCopy),
    Sends,
    Bars(Block(1, PageStage::PageCopy, 0)),
    Bars(Changed(2, 0)),
    Bars(Changed(0, 65_536)),
    Takes(Changed(0, 2)),
    Takes(End(CopyStage::PageCopy)),
    Sends,
    Bars(RedoCopy {
        checkpoint: 8197,
        lsn: 8192,
    }),
    Takes(REDO),
    Shows(IN_REDO),
    Sends,
    Bars(Redo(8193)),
    Takes(Redo(8192)),
    Takes(End(CopyStage::RedoCopy)),
    Bars(Done),
    Sends,
    Takes(Done),
    Shows(ALL_COPIED),
];

const IN_FILES: &str =
    "status In Progress\nDROP DATA Completed\nFILE COPY In Progress 1/1\nPAGE COPY Not Started\n\
     REDO COPY Not Started\nFILE SYNC Not Started\nRESTART Not Started\nRECOVERY Not Started\n";

const IN_REDO: &str =
    "status In Progress\nDROP DATA Completed\nFILE COPY Completed 1/1\nPAGE COPY Completed 1/1\n\
     REDO COPY In Progress 0/1\nFILE SYNC Not Started\nRESTART Not Started\n\
     RECOVERY Not Started\n";

const ALL_COPIED: &str =
    "status In Progress\nDROP DATA Completed\nFILE COPY Completed 1/1\nPAGE COPY Completed 1/1\n\
     REDO COPY Completed 1/1\nFILE SYNC Not Started\nRESTART Not Started\nRECOVERY Not Started\n";

const SYNCED: &str =
    "status In Progress\nDROP DATA Completed\nFILE COPY Completed 1/1\nPAGE COPY Completed 1/1\n\
     REDO COPY Completed 1/1\nFILE SYNC Completed\nRESTART Not Started\nRECOVERY Not Started\n";

fn attempt(incarnation: u32) -> Attempt {
    Attempt {
        session: 1,
        incarnation,
    }
}

fn frame(alloc: Global, sent: Sent) -> Result<Frame, AllocError> {
    Ok(match sent {
        Files { .. } | PageCopy | RedoCopy { .. } | Done => Frame::Stage {
            attempt: attempt(1),
            plan: plan(alloc, sent)?,
        },
        Block(incarnation, stage, number) => Frame::Pages {
            attempt: attempt(incarnation),
            stage,
            chunk: 0,
            block: 0,
            pages: Pages::new(vec![in alloc; page(number, 7)]?),
        },
        Changed(first, second) => Frame::Pages {
            attempt: attempt(1),
            stage: PageStage::PageCopy,
            chunk: 0,
            block: 0,
            pages: Pages::new(vec![in alloc; page(first, 8), page(second, 9)]?),
        },
        Redo(from) => Frame::Redo {
            attempt: attempt(1),
            chunk: 0,
            block: 0,
            from,
            bytes: RedoBytes::new(alloc, &[6; 5])?,
        },
        End(stage) => Frame::End {
            attempt: attempt(1),
            stage,
        },
        Exit => Frame::Exit,
    })
}

fn plan(alloc: Global, sent: Sent) -> Result<StagePlan, AllocError> {
    Ok(match sent {
        Files { chunks, pages } => StagePlan::FileCopy {
            chunks,
            spaces: Spaces::of_pairs(alloc, &[(1, pages)])?,
        },
        PageCopy => StagePlan::PageCopy {
            chunks: 1,
            position: 2,
            spaces: Spaces::new(alloc),
        },
        RedoCopy { checkpoint, lsn } => StagePlan::RedoCopy {
            chunks: 1,
            checkpoint,
            lsn,
            position: 3,
        },
        _ => StagePlan::Done {
            checkpoint: 8192,
            lsn: 8197,
            position: 3,
        },
    })
}

// A page of space 1 that is filled with a byte.
fn page(number: u32, byte: u8) -> PageAt {
    PageAt {
        space: 1,
        number,
        page: Page::from_bytes(&[byte; 4096]),
    }
}

/// A clone of one task, and the disk that it is laid on.
#[derive(Drop)]
struct Laid {
    reception: Reception,
    disk: MemDisk,
    ghost sized: { AreSizes reception.sizes disk.contents.image },
}

impl Laid {
    // A clone begins on an empty disk.
    fn begin(alloc: Global) -> Result<Laid, Stuck> {
        let mut disk = MemDisk::new(alloc);
        let reception = Reception::begin(alloc, &mut disk, 1, 1, 16, 1)?;
        Ok(Laid { reception, disk })
    }

    // A clone to which all this happened.
    fn after(rt: &impl Abort, alloc: Global, steps: &[Step]) -> Result<Laid, Stuck> {
        let mut laid = Laid::begin(alloc)?;
        for step in steps {
            laid = match *step {
                Sends => laid.send(alloc)?,
                Takes(sent) => laid.take(alloc, frame(alloc, sent)?)?,
                seen => {
                    assert!(rt; laid.is_seen(alloc, seen)?);
                    laid
                }
            };
        }
        Ok(laid)
    }

    // Whether the clone awaits what it should, and shows what it should.
    fn is_seen(&self, alloc: Global, step: Step) -> Result<bool, Stuck> {
        Ok(match step {
            Awaits(sent) => self.reception.expects(0, &frame(alloc, sent)?),
            Bars(sent) => !self.reception.expects(0, &frame(alloc, sent)?),
            Shows(text) => self.reception.progress_text(alloc)?.as_str() == text,
            Sends | Takes(_) => true,
        })
    }

    // The task sends what is due.
    fn send(self, alloc: Global) -> Result<Laid, Stuck> {
        let Laid {
            mut reception,
            disk,
        } = self;
        let _ = reception.next_send(alloc, 0, 0)?;
        Ok(Laid { reception, disk })
    }

    // The task takes a frame.
    fn take(self, alloc: Global, frame: Frame) -> Result<Laid, Stuck> {
        let Laid {
            mut reception,
            mut disk,
        } = self;
        let _ = reception.take(alloc, &mut disk, 0, frame)?;
        Ok(Laid { reception, disk })
    }
}

// What isn't awaited is given back.
#[test]
fn what_is_awaited_after_init(rt: HostRuntime) -> Result<(), Stuck> {
    let alloc = rt.alloc();
    let Laid {
        mut reception,
        mut disk,
    } = Laid::after(&rt, alloc, &AFTER_INIT)?;
    match reception.take(alloc, &mut disk, 0, frame(alloc, FIRST_PAGE)?) {
        Err(TakeRefusal::Unexpected { frame }) => assert!(rt; frame.code() == 17),
        _ => assert!(rt; false),
    }
    Ok(())
}

#[test]
fn blocks_of_files(rt: HostRuntime) -> Result<(), Stuck> {
    let alloc = rt.alloc();
    let laid = Laid::after(&rt, alloc, &IN_ONE_BLOCK)?;
    assert!(rt; !laid.reception.table().marks().is_left(0, 0));
    Ok(())
}

// All stages, up to the complete mark.
#[test]
fn a_whole_clone(rt: HostRuntime) -> Result<(), Stuck> {
    let alloc = rt.alloc();
    let Laid {
        mut reception,
        mut disk,
    } = Laid::after(&rt, alloc, &A_CLONE)?;
    match reception.table().phase() {
        Phase::Done => assert!(rt; reception.complete(&mut disk)? == (8197, 3)),
        _ => assert!(rt; false),
    }
    assert!(rt; reception.progress_text(alloc)?.as_str() == SYNCED);
    assert!(rt; disk.pages(1)? == Some(3) && disk.pages(REDO_SPACE)? == Some(1));
    let end = CloneEnd {
        session: 1,
        checkpoint: 8192,
        lsn: 8197,
        position: 3,
    };
    assert!(rt; disk.read_mark()? == Some(Mark::Complete(end).to_bytes()));
    Ok(())
}
