ghost use Rattle.std.specs.Prelude.{◌≡◌, IfOk};
ghost use Rattle.std.specs.Option.{option_copied};
ghost use Rattle.std.specs.String.{string_bytes};
ghost use Rattle.clone_progress.specs.Texts as texts;
ghost use Rattle.clone_recipient.specs.Showing.{copied_of, page_chunks, progress_of};
ghost use Rattle.clone_recipient.specs.Showing.{redo_chunks, status_of};

use crate::Reception;
use clone_chunk::CopyStage;
use clone_progress::{CloneStatus, Copied, Progress, progress_text};
use clone_snapshot::{CHUNK_PAGES, file_chunks, redo_chunks};
use clone_tasks::{CloneEnd, Phase};
use std::alloc::{AllocError, Global};

impl Reception {
    /// Where the clone and each of its stages are, each on a line.
    pub fn progress_text(&self, alloc: Global) -> Result<String, AllocError>
        ensures { IfOk result
            (λ text. string_bytes text ≡ texts.progress_text (progress_of self.now)) }
    {
        let progress = Progress {
            status: status_of(self.table.ended()),
            copied: self.copied(),
            synced: self.synced,
            recovered: self.recovered,
        };
        progress_text(alloc, &progress)
    }

    // How far the copy is.
    fn copied(&self) -> Copied
        ensures { result ≡ copied_of self.now.table.phase self.now }
    {
        let marks = self.table.marks();
        let (finished, chunks) = (marks.finished(), marks.count());
        match self.table.phase() {
            Phase::Opening => Copied::Nothing,
            Phase::Copying {
                stage: CopyStage::FileCopy,
            } => Copied::Files { finished, chunks },
            Phase::Copying {
                stage: CopyStage::PageCopy,
            } => Copied::Pages {
                files: file_chunks(&self.files),
                finished,
                chunks,
            },
            Phase::Copying {
                stage: CopyStage::RedoCopy,
            } => Copied::Redo {
                files: file_chunks(&self.files),
                pages: self.page_chunks(),
                finished,
                chunks,
            },
            Phase::Done => Copied::All {
                files: file_chunks(&self.files),
                pages: self.page_chunks(),
                redo: self.redo_chunks(),
            },
        }
    }

    // How many chunks the pages have.
    fn page_chunks(&self) -> u32
        ensures { result ≡ page_chunks self.now }
    {
        self.pages.div_ceil(CHUNK_PAGES)
    }

    // How many chunks the redo has.
    fn redo_chunks(&self) -> u32
        ensures { result ≡ redo_chunks self.now }
    {
        redo_chunks(self.end.checkpoint, self.end.lsn)
    }
}

// Where the clone is, by how it ended.
fn status_of(ended: Option<&CloneEnd>) -> CloneStatus
    ensures { result ≡ status_of (option_copied ended.entry) }
{
    match ended {
        None => CloneStatus::InProgress,
        Some(CloneEnd::Complete { lsn, position }) => CloneStatus::Completed {
            lsn: *lsn,
            position: *position,
        },
        Some(_) => CloneStatus::Failed,
    }
}
