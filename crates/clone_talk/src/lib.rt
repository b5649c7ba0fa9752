//! A donor and a recipient that talk while the clone goes on, whatever else the donor does: engine
//! calls, connections that no task has any more, and strangers with sessions of their own. One of
//! those may stand in the way of the clone's session, whose INIT the donor then refuses.
#![tactic(auto)]

mod donor_laws;
mod laws;

pub use donor_laws::{acts_laws, donor_goes_on, strangers_leave_talk};
pub use laws::{talk_laws, talk_moves};
