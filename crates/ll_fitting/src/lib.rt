//! A policy as its author writes it, and what a version of Landlock's interface leaves of it.
#![tactic(auto)]

mod fitting;
mod laws;
mod policy;
mod refusing;
mod rights;
mod told;
mod worked;
mod written;

pub use fitting::{FittedLayer, FittedPathRule, FittedPortRule};
pub use laws::{rules_ask_right_by_right, what_is_left_is_valid};
pub use policy::{MOST_LAYERS, Misfit, Policy, RuleMisfit};
pub use refusing::{RefusedRule, first_refused};
pub use worked::{worked_misfits, worked_rules, worked_versions};
pub use written::{Access, Layer, Parent, PathRule, PortRule, Scopes};
