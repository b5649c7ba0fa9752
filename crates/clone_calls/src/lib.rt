//! The calls of a donor as values, one variant a call, and their answers. Whoever makes them knows
//! no donor: it asks anything that answers, which says by a relation of its own what a call does,
//! and promises that each answer is one to its call.
#![tactic(auto)]

mod answer;
mod answers;
mod block;
mod call;

pub use answer::DonorAnswer;
pub use answers::Answers;
pub use block::{Block, BlockRefusal};
pub use call::DonorCall;
