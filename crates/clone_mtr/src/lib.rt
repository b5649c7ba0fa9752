//! Mini-transactions: lists of redo records, their one spelling as bytes, and what a record does to
//! a page.
#![tactic(auto)]

mod effects;
mod fields;
mod laws;
mod laying;
mod patch;
mod reading;
mod record;
mod records;
mod reference;
mod refusal;
mod writing;

pub use effects::apply;
pub use laws::{one_answer, one_spelling};
pub use laying::{encode_into, spelling_length};
pub use patch::{LONGEST_PATCH, Patch, SHORT_PATCH};
pub use reading::decode;
pub use record::{Mtr, Record};
pub use records::Records;
pub use reference::{PatchRef, RecordRef};
pub use refusal::{DecodeRefusal, EncodeRefusal, TooLong};
pub use writing::{LONGEST_MTR, encode};
