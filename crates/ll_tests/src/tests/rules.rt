//! Tests of maps that share, of rulesets and of the checks.

mod checks;
mod comparison;
mod maps;
mod numbers;
mod ready;
mod refusals;
