//! The central law of a clone, page by page: what redo makes of one page, all that can happen to a
//! page while it is cloned, and that each value from which redo may start becomes the page as it
//! was at the stop.
#![tactic(auto)]

mod laws;

pub use laws::{
    answer_laws, flushed_example, growing_laws, machine_laws, mistakes_mislead, recovery_laws,
    redo_laws, suiting_examples, suiting_laws,
};
