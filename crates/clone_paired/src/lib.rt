//! A donor and a recipient that talk over a network's connections, as the rounds of two ends.
#![tactic(auto)]

mod donor_late_laws;
mod donor_laws;
mod donor_premises_laws;
mod donor_serving_laws;
mod donor_stages_laws;
mod laws;

pub use donor_late_laws::{closing_ends, late_ends};
pub use donor_laws::{acts_aside, service_goes_on, strangers_leave};
pub use donor_premises_laws::{order_serves, order_stays, order_steps};
pub use donor_serving_laws::{blocks_ascend, serving_ends};
pub use donor_stages_laws::task_ends;
pub use laws::{ends_fairly, never_stuck, paired_laws, reception_laws, rests_laws};
