//! Maps from numbers to values whose clones share what they have in common: a clone takes no memory that grows with
//! the map, and a change of one of them copies only the way to its key.
#![tactic(auto)]

mod leaf;
mod levels;
mod low_map;
mod map;
mod node;

pub use low_map::{LeafMap, LowMap};
pub use map::SharedMap;
