//! The members of a line that the formats of the tree and of the trace name, each in a slot. A line is read token by
//! token: a value that no slot is for is passed over, and nothing is kept of it.
#![tactic(auto)]

mod first;
mod members;
mod names;
mod plain;
mod rights;
mod row;
mod slots;

pub use members::{flag_of, fs_of, net_of, number_of, text_of, truth_of};
pub use row::{Members, Name};
pub use slots::read_members;
