//! The changes that a generated workload makes: which transactions a writer begins, by a seed.
#![tactic(auto)]

mod generator;
mod words;

pub use generator::{INDEX_LIMIT, KEYS, KINDS, MOST_CHANGES, generated, stream_laws};
