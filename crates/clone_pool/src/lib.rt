//! Pages of a disk in frames, of which the one used least recently makes way.
#![tactic(auto)]

mod frame;
mod index;
mod orders;
mod pool;
mod row;
mod tournament;

pub use frame::{Content, Flush, Frame, PageName};
pub use pool::{FetchRefusal, Pool};
