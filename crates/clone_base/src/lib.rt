//! What several crates need: the numbers that more than one of them keeps to, each once, counts of
//! numbers, and lemmas on finite maps and lists.
#![tactic(auto)]

mod counts;
mod limits;

pub use counts::Counts;
pub use limits::{
    BLOCK_BYTES, BLOCK_PAGES, CHANGE_LIMIT, FIRST_LSN, LSN_LIMIT, MOST_LOSSES, MOST_TASKS,
    PAGE_SIZE, REDO_SPACE, SPACE_LIMIT, TABLE_LIMIT, TRANSACTION_LIMIT, VALUE_LIMIT,
};
