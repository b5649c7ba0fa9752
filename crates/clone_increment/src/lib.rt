//! Incremental backups of a donor's files: a full copy, and increments that hold the pages that
//! were written since the copy before. A full copy to which increments are applied in order is the
//! disk's image at the last of them, page for page.
#![tactic(auto)]

mod backup;
mod changes;
mod counting;
mod increment;
mod laws;
mod page_map;
mod reading;
mod refusal;
mod slot;
mod tracking;

pub use backup::Backup;
pub use increment::{Increment, merge};
pub use laws::{increment_laws, merge_laws, note_laws, space_laws, still_laws, write_laws};
pub use refusal::BackupRefusal;
pub use tracking::Tracking;
