//! The command line: what its words ask for, and what is wrong with them.
#![tactic(auto)]

mod command;
mod laws;
mod misuse;

pub use command::{Plan, Run, VERSION, plan_of};
pub use laws::{command_lines, words_without_a_fault_name_a_run};
pub use misuse::{Message, Misuse};
