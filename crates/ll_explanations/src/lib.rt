//! Explanations as values: why a record of a judged case is refused or moot.
#![tactic(auto)]

mod asked;
mod call;
mod condition;
mod confinement;
mod explanation;
mod kept;
mod missing;
mod mootness;
mod moved;
mod moves;
mod objection;
mod objects;
mod paths;
mod ports;
mod same;
mod why;

pub use condition::Condition;
pub use explanation::{Explanation, explain};
pub use objection::{LayerObjection, LayerObjections, Objection};
pub use paths::{text_above, text_of};
pub use why::{NamedPath, Reason, Which};
