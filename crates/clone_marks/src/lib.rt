//! Which blocks of a stage a recipient has taken, chunk by chunk. A chunk is finished once each of
//! its blocks was taken. A loss forgets blocks of chunks that aren't finished.
#![tactic(auto)]

mod chunk_marks;
mod laws;
mod making;
mod marks;
mod reporting;

pub use chunk_marks::ChunkMarks;
pub use laws::{counting_laws, forgetting_laws};
pub use marks::Marks;
