use clone_progress::{CloneStatus, Copied, Progress, progress_text};
use std::alloc::AllocError;

/// How far a clone is, and its text: the line of the clone and those of the stages.
type Row = (Progress, &'static str);

const NOT_STARTED: Row = (
    Progress {
        status: CloneStatus::NotStarted,
        copied: Copied::Nothing,
        synced: false,
        recovered: false,
    },
    "status Not Started\nDROP DATA Not Started\nFILE COPY Not Started\nPAGE COPY Not Started\n\
     REDO COPY Not Started\nFILE SYNC Not Started\nRESTART Not Started\nRECOVERY Not Started\n",
);

// The disk failed as the clone was begun.
const FAILED_START: Row = (
    Progress {
        status: CloneStatus::Failed,
        copied: Copied::Nothing,
        synced: false,
        recovered: false,
    },
    "status Failed\nDROP DATA Completed\nFILE COPY Not Started\nPAGE COPY Not Started\n\
     REDO COPY Not Started\nFILE SYNC Not Started\nRESTART Not Started\nRECOVERY Not Started\n",
);

const IN_FILES: Row = (
    Progress {
        status: CloneStatus::InProgress,
        copied: Copied::Files {
            finished: 2,
            chunks: 6,
        },
        synced: false,
        recovered: false,
    },
    "status In Progress\nDROP DATA Completed\nFILE COPY In Progress 2/6\nPAGE COPY Not Started\n\
     REDO COPY Not Started\nFILE SYNC Not Started\nRESTART Not Started\nRECOVERY Not Started\n",
);

const IN_PAGES: Row = (
    Progress {
        status: CloneStatus::InProgress,
        copied: Copied::Pages {
            files: 6,
            finished: 1,
            chunks: 1,
        },
        synced: false,
        recovered: false,
    },
    "status In Progress\nDROP DATA Completed\nFILE COPY Completed 6/6\nPAGE COPY In Progress 1/1\n\
     REDO COPY Not Started\nFILE SYNC Not Started\nRESTART Not Started\nRECOVERY Not Started\n",
);

// Too many losses while the redo was copied.
const FAILED_IN_REDO: Row = (
    Progress {
        status: CloneStatus::Failed,
        copied: Copied::Redo {
            files: 6,
            pages: 0,
            finished: 0,
            chunks: 2,
        },
        synced: false,
        recovered: false,
    },
    "status Failed\nDROP DATA Completed\nFILE COPY Completed 6/6\nPAGE COPY Completed 0/0\n\
     REDO COPY In Progress 0/2\nFILE SYNC Not Started\nRESTART Not Started\n\
     RECOVERY Not Started\n",
);

// The last sync failed, and the disk was recovered by its mark.
const FAILED_SYNC: Row = (
    Progress {
        status: CloneStatus::Failed,
        copied: Copied::All {
            files: 6,
            pages: 1,
            redo: 2,
        },
        synced: false,
        recovered: true,
    },
    "status Failed\nDROP DATA Completed\nFILE COPY Completed 6/6\nPAGE COPY Completed 1/1\n\
     REDO COPY Completed 2/2\nFILE SYNC Not Started\nRESTART Completed\nRECOVERY Completed\n",
);

const COMPLETED: Row = (
    Progress {
        status: CloneStatus::Completed {
            lsn: 8_573,
            position: 18_446_744_073_709_551_615,
        },
        copied: Copied::All {
            files: 6,
            pages: 1,
            redo: 4_294_967_295,
        },
        synced: true,
        recovered: true,
    },
    "status Completed lsn 8573 position 18446744073709551615\nDROP DATA Completed\n\
     FILE COPY Completed 6/6\nPAGE COPY Completed 1/1\n\
     REDO COPY Completed 4294967295/4294967295\nFILE SYNC Completed\nRESTART Completed\n\
     RECOVERY Completed\n",
);

#[test]
fn texts_of_progress(rt: HostRuntime) -> Result<(), AllocError> {
    let rows = [
        NOT_STARTED,
        FAILED_START,
        IN_FILES,
        IN_PAGES,
        FAILED_IN_REDO,
        FAILED_SYNC,
        COMPLETED,
    ];
    for (progress, text) in rows {
        let shown = progress_text(rt.alloc(), &progress)?;
        assert!(rt; shown.as_str() == text);
    }
    Ok(())
}
