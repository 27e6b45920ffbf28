//! What tests and measurements share: a worked tree and a worked trace, a process that restricts itself, and a plain
//! checker of paths and moves, with which the checks by lanes are compared.
#![tactic(auto)]

mod layer;
mod moves;
mod sandbox;
mod worked;

pub use layer::{PlainLayer, Refuses, Refusing, refusing, stacked};
pub use moves::{Attempt, Call, answer};
pub use sandbox::Sandbox;
pub use worked::{FAMILY, TREE};
