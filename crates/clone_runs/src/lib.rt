//! The runs of a clone by several threads, put together: the donor's, the recipient's and that of
//! the desk where connections wait. Each is known by itself, once its cell is closed, and nothing
//! is known of the order between calls of different seats. That the calls of each seat are in the
//! run, in their order, and that each end of a connection received what the other sent from the
//! first byte on, is enough. Nothing here knows what a donor or a recipient is.
#![tactic(auto)]

mod laws;

pub use laws::{
    clone_laws, connection_laws, desk_laws, fetched_laws, last_laws, opened_laws, served_laws,
    settled_laws, shuffled_laws,
};
