//! Policies read from lines of JSON, and answered by the calls that put them in force; the tables of rights.
#![tactic(auto)]

mod access;
mod calls;
mod groups;
mod lists;
mod objects;
mod policy;
mod program;
mod rules;
mod tables;

pub use calls::{Called, call_lines};
pub use policy::{LayerRead, PolicyRead};
pub use program::{write_calls, write_tables};
pub use rules::RuleRead;
