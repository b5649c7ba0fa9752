//! Frames one after the other as bytes. Each is put after the bytes that are to be sent, and taken
//! from the front of those that were received, once it is there whole, whatever pieces they come
//! in.
#![tactic(auto)]

mod laws;
mod putting;
mod taking;

pub use laws::{in_order, reads_next};
pub use putting::put_frame;
pub use taking::{Kept, MOST_KEPT, StreamRefusal, keep_front, take_frame};
