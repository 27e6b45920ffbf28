//! The report as JSON Lines, record after record of a trace that was judged.
#![tactic(auto)]

mod answers;
mod conditions;
mod json_text;
mod laws;
mod objections;
mod reasons;
mod report;
mod rights;
mod rows;
mod said;
mod spans;
mod totals;
mod words;

pub use laws::{worked_answers, worked_conditions, worked_objections};
pub use report::{JsonRows, json_report};
