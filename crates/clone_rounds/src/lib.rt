//! The two ends of a clone as a machine without bytes: what the tasks of a recipient and a donor
//! ask and answer, round by round. One rule says who awaits what of whom. Every step keeps it, and
//! while it holds some step is never idle, no frame is out of turn, and no command is refused; and
//! each step leaves less to do.
#![tactic(auto)]

mod laws;

pub use laws::{all_fit, clone_ends, kept, lists_as_numbers, never_stuck, rules_step, steps_left};
