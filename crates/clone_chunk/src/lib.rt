//! The stages of a clone, and the chunks of a stage: which are free, which a task has claimed, and
//! which are finished. And what donor and requester tell each other of these: what is copied in a
//! stage, a bit for each chunk, the blocks taken of others, the redo of a block, the spaces, and
//! why a call is refused.
#![tactic(auto)]

mod bitmap;
mod bits;
mod cause;
mod chunk;
mod copy_stage;
mod laws;
mod map;
mod masks;
mod partials;
mod plan;
mod redo_bytes;
mod spaces;
mod stage;
mod taken;

pub use bitmap::{Bitmap, MOST_CHUNKS, ends_at};
pub use bits::is_set;
pub use cause::CloneCause;
pub use chunk::Chunk;
pub use copy_stage::CopyStage;
pub use laws::claimed_once;
pub use map::ChunkMap;
pub use masks::{CHUNK_BLOCKS, is_kept};
pub use partials::{MOST_MASK, MOST_PARTIAL, PartialChunk, Partials};
pub use plan::StagePlan;
pub use redo_bytes::RedoBytes;
pub use spaces::{SpaceSize, Spaces};
pub use stage::Stage;
pub use taken::TakenBlocks;
