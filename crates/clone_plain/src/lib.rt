//! The plain donor: what its calls answer and leave, with nothing of pages, logs or copies in it.
//! Definitions with their laws, the calls with their answers, and the refusals.
#![tactic(auto)]

mod call;
mod laws;
mod refusal;

pub use call::{EngineAnswer, EngineCall};
pub use clone_base::{CHANGE_LIMIT, TABLE_LIMIT, TRANSACTION_LIMIT, VALUE_LIMIT};
pub use laws::{drop_laws, holder_laws};
pub use refusal::{Cause, EngineRefusal, Undone};
