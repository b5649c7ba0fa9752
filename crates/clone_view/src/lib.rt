//! The two ends of a clone as the rounds see them: a recipient's table of tasks, a donor's session
//! with its loops, and the frames that lie unread between them. The rule by which a task acts is
//! the rule that applies in the rounds, and what the table becomes is what a step leaves there.
#![tactic(auto)]

mod laws;

pub use laws::{
    donor_sends, donor_stages, donor_steps, rules_apply, task_loses, task_sends, task_takes, works,
};
