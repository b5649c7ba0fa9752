//! Recovery on a page disk: the redo of a clone is carried out over the disk's pages, the changes
//! of each transaction that was open are taken back, and the rows of a recovered disk.
#![tactic(auto)]

mod chains;
mod dictionary;
mod log;
mod recovery;
mod redo;
mod refusal;
mod rollback;
mod rows;
mod scan;
mod writing;

pub use recovery::{Recovered, recover};
pub use refusal::{RecoverRefusal, Why};
pub use rows::open_rows;
