//! What one process has by itself, and how its calls are judged.
#![tactic(auto)]

mod call;
mod checks;
mod descriptors;
mod moves;
mod own_state;
mod requests;

pub use call::SeenCall;
pub use moves::{link_move, rename_move};
pub use own_state::OwnState;
pub use requests::asks;
