//! Images: the pages of each space, what a redo log makes of them, and the rows that they hold.
//! Definitions and laws, and the rows of a page.
#![tactic(auto)]

mod laws;
mod rows;

pub use laws::{page_laws, redone_laws, replay_laws};
pub use rows::add_page;
