//! What the records of a trace do to the rulesets, settled in one pass in trace order.
//!
//! A ruleset that two processes hold is one ruleset, so what a record finds in it rests on the records of
//! all processes before it. All else rests on the states of single processes.
#![tactic(auto)]

mod pass;
mod rulebook;
mod store;
mod tables;

pub use rulebook::Rulebook;
