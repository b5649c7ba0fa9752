//! The clone that a donor gives: the session, its stage with the chunks, the pages that are
//! tracked, the redo that is archived, and the last stop. Nothing here knows of pages in frames or
//! of a disk: what a call needs of these it is given.
#![tactic(auto)]

mod caller;
mod causes;
mod cloning;
mod copying;
mod created;
mod ending;
mod info;
mod joining;
mod keeping;
mod limits;
mod refusal;
mod session;
mod starting;
mod telling;

pub use caller::{Caller, Hello};
pub use cloning::Cloning;
pub use copying::BlockWork;
pub use ending::Moment;
pub use info::{StageInfo, Stop};
pub use limits::{BLOCKS_VERSION, VERSION};
pub use refusal::CloneRefusal;
