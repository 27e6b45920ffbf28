//! The calls that put a policy in force, and what they make of a process.
#![tactic(auto)]

mod calls;
mod laws;
mod worked;

pub use calls::{Call, enforce};
pub use laws::{
    best_effort_gives_the_same_layers, rulesets_that_handle_nothing_are_not_read,
    the_first_refused_rule_is_named,
};
pub use worked::{worked_best_effort, worked_calls, worked_start};
