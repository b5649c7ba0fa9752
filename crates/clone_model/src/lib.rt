//! What a donor keeps, apart from how it keeps it: values, changes, commits, the rows that a
//! history leaves, the texts of all these, and how a binlog is read back from its text.
#![tactic(auto)]

mod change;
mod config;
mod drops;
mod history;
mod line;
mod list;
mod reading;
mod script_value;
mod tables;
mod text;
mod value;

pub use change::{Change, Commit};
pub use config::{Config, LEAST_POOL, LEAST_RING, MOST_POOL, MOST_RING, USUAL_POOL, USUAL_RING};
pub use drops::Drops;
pub use history::{drop_laws, history_laws};
pub use line::{BucketCount, HIGHEST_TABLE, MOST_BUCKETS, MOST_CALLS, MOST_PAGES, TableNumber};
pub use list::{Binlog, Changes};
pub use reading::{
    ReadRefusal, as_u32, binlog_reads_back, leading_number, number_of, one_answer, one_binlog,
    read_binlog, script_value_of, split_once, value_of,
};
pub use script_value::{LONGEST_SCRIPT_VALUE, ScriptValue};
pub use tables::{Tables, fold};
pub use text::{binlog_text, push_value, rows_text};
pub use value::Value;
