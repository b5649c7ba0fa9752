//! What a donor's frames say to a recipient: each was answered in the donor's run, and so are the
//! items that a recipient takes of it.
#![tactic(auto)]

mod laws;

pub use laws::told_laws;
