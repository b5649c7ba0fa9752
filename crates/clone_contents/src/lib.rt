//! What an image contains, between the bytes of its pages and the rows that they mean, and what
//! each mini-transaction does to it.
#![tactic(auto)]

mod laws;

pub use laws::{
    begin_law, change_law, commit_law, create_law, drop_law, end_law, find_laws, freeing_law,
    growth_law, opening_law, placed_laws, rows_law, taking_back_law, undoing_law,
};

/// How many pages the system space has: the system page, and four for each of 64 undo slots.
pub const SYSTEM_PAGES: u32 = 257;
