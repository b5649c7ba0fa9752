//! The dictionary on the system page, as a list of entries: which tables there are, how many
//! buckets each has and how many pages its space has; and the mini-transactions that add an entry,
//! make a space longer, and take an entry away.
#![tactic(auto)]

mod entry;
mod laws;
mod reading;
mod records;

pub use entry::{BUCKETS_AT, PAGES_AT, TableEntry};
pub use laws::{entry_laws, free_laws, link_laws, list_laws, room_law, size_laws};
pub use reading::{entry_at, find, least_free, sizes};
pub use records::{create_records, drop_records, growth_records};
