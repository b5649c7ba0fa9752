//! Pages that are changed over those of a page disk, before any of them is written.
#![tactic(auto)]

mod overlay;
mod sheet;

pub use overlay::{FetchRefusal, Overlay, Sheets};
pub use sheet::{Leaves, Sheet};
