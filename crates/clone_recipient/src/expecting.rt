ghost use Rattle.std.specs.Prelude.{◌≡◌, ◌<◌, ◌^◌};
ghost use Rattle.clone_accepted.specs.Disk.{distance_of};
ghost use Rattle.clone_recipient.specs.Expecting.{copied_in, fits_pages, fits_redo, is_expected};

use crate::Reception;
use crate::blocks::{are_pages, are_pages_of, bytes_at, pages_at};
use crate::plans::fits;
use clone_base::BLOCK_BYTES;
use clone_chunk::CopyStage;
use clone_page::PageAt;
use clone_snapshot::CHUNK_BYTES;
use clone_wire::{Frame, PageStage};

impl Reception {
    /// Whether a task may take this frame next.
    pub fn expects(&self, task: u8, frame: &Frame) -> bool
        ensures { result ≡ is_expected self.now task frame.now }
    {
        match frame {
            Frame::Stage { attempt, plan } => {
                self.table.is_present(*attempt)
                    && self.table.awaits_stage(task, plan.stage())
                    && fits(plan)
            }
            Frame::Pages {
                attempt,
                stage,
                chunk,
                block,
                pages,
            } => {
                self.table.is_present(*attempt)
                    && self
                        .table
                        .awaits_block(task, copied_in(*stage), *chunk, *block)
                    && self.fits_pages(*stage, *chunk, *block, pages.as_slice())
            }
            Frame::Redo {
                attempt,
                chunk,
                block,
                from,
                bytes,
            } => {
                self.table.is_present(*attempt)
                    && self
                        .table
                        .awaits_block(task, CopyStage::RedoCopy, *chunk, *block)
                    && self.fits_redo(*chunk, *block, *from, bytes.as_slice())
            }
            Frame::End { attempt, stage } => {
                self.table.is_present(*attempt) && self.table.awaits_end(task, *stage)
            }
            Frame::Refused { .. } => self.table.standing(task).awaits(),
            Frame::Init { .. }
            | Frame::Attach { .. }
            | Frame::Reinit { .. }
            | Frame::Reinit2 { .. }
            | Frame::Execute { .. }
            | Frame::Ack { .. }
            | Frame::Exit => false,
        }
    }

    // Whether pages are those of a block.
    fn fits_pages(&self, stage: PageStage, chunk: u32, block: u8, pages: &[PageAt]) -> bool
        ensures { result ≡ fits_pages stage self.now chunk block pages.now }
    {
        are_pages(pages)
            && match stage {
                PageStage::FileCopy => are_pages_of(&self.files, chunk, block, pages),
                PageStage::PageCopy => { pages.len() as u64 == pages_at(self.pages, chunk, block) }
            }
    }

    // Whether redo has the place and the length of a block.
    fn fits_redo(&self, chunk: u32, block: u8, from: u64, bytes: &[u8]) -> bool
        ensures { result ≡ fits_redo self.now chunk block from bytes.now }
    {
        from == self.end.checkpoint + distance_of(chunk, block)
            && bytes.len() as u64 == bytes_at(self.end.checkpoint, self.end.lsn, chunk, block)
    }
}

// How far from the checkpoint a block of redo stands.
fn distance_of(chunk: u32, block: u8) -> u64
    ensures value { result ≡ distance_of chunk block }
    ensures low { result < 2 ^ 49 }
{
    CHUNK_BYTES as u64 * chunk as u64 + BLOCK_BYTES as u64 * block as u64
}

// The stage of pages among those in which something is copied.
fn copied_in(stage: PageStage) -> CopyStage
    ensures { result ≡ copied_in stage }
{
    match stage {
        PageStage::FileCopy => CopyStage::FileCopy,
        PageStage::PageCopy => CopyStage::PageCopy,
    }
}
