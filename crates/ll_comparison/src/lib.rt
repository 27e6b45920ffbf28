//! Comparisons of two policies: read from lines of JSON, decided over objects, and answered by lines of JSON.
#![tactic(auto)]

mod answers;
mod comparison;
mod found;
mod program;
mod rules;
mod told;

pub use answers::compare_lines;
pub use comparison::{Asked, Comparison, MOST_PORTS};
pub use found::{Found, Lost, compare};
pub use program::write_answers;
