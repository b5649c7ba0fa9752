//! The jobs at a donor's side that run in threads of their own: a writer, which commits the
//! transactions of its stream, and the flusher, the checkpointer and the archiver, which keep the
//! donor going meanwhile. They share the donor, and each of their calls is a turn of it. Each
//! passes the gate after each call.
#![tactic(auto)]

mod ending;
mod job_end;
mod laws;
mod post;
mod upkeep;
mod writing;

pub use ending::Ending;
pub use job_end::JobEnd;
pub use laws::{upkeep_laws, writer_laws, written_laws};
pub use upkeep::{ARCHIVED_AT_ONCE, Upkeep, UpkeepJob};
pub use writing::WriterJob;
