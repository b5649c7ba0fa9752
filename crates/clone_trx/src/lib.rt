//! A donor's transactions, over pages in frames and the redo log that makes them. Each call is a
//! step of the plain donor, and goes a way over pages: `specs/Ways.antt` says what a way is,
//! `specs/Calls.antt` which way each call goes.
#![tactic(auto)]

mod active;
mod held;
mod hold;
mod locks;
mod opening;
mod records;
mod slot;
mod transactions;
mod walk;

pub use opening::{OpenRefusal, open};
pub use transactions::{Transactions, kept_laws, missed_laws};
