//! Tests of the crates by their public functions: reading, rulesets and checks, judging, whole runs. And what some of
//! them need besides: processes judged in an order of a caller's own, and a source that fails.
#![tactic(auto)]

mod failing;
#[cfg(test)]
mod ground;
mod keeper;
mod order;
#[cfg(test)]
mod tests;

pub use failing::FailingSource;
pub use keeper::{Keeper, Wanted};
pub use order::judge_greatest_first;
