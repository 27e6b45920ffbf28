//! The listed file tree: the nodes of a tree and the places that paths name, and the reading of a tree file.
#![tactic(auto)]

mod chains;
pub mod laws;
mod object;
mod place;
mod tree;

pub use ll_lines::{Cause, ReadFault, front_text, path_ok, path_texts};
pub use object::kind_of;
pub use place::{NodeId, Place, SmallPlace};
pub use tree::{MOST_NODES, Tree};
