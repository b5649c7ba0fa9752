//! Fields of fixed width: numbers of one, two, four and eight bytes, the highest byte first, and
//! runs of bytes.
#![tactic(auto)]

mod laws;
mod reader;
mod writer;

pub use laws::a_number_is_its_bytes;
pub use reader::{Reader, Short};
pub use writer::Writer;
