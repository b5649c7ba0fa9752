//! A writer of a generated workload: which call it makes next, by what its calls so far were
//! answered, and the law that its commits are its stream, whatever others do meanwhile. It makes no
//! call itself, and knows no thread.
#![tactic(auto)]

mod laws;
mod writer;

pub use laws::{begin_laws, end_laws, own_laws, spared_laws, writers_laws};
pub use writer::{Place, Writer};
