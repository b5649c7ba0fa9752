//! What is shown of a clone's disk: up to where it is recovered, its rows, or what is against the
//! format.
#![tactic(auto)]

mod recovering;
mod texts;

pub use recovering::{dump, recover_clone, recovered_rows};
pub use texts::{damage_line, damage_text, rows_shown};
