//! Landlock's access rights: sets of them, the versions of the interface that know them and ranges of these versions,
//! and the kinds of files that they speak of.
#![tactic(auto)]

mod abi;
mod abi_range;
mod bits;
mod fs;
mod kind;
mod laws;
mod net;
mod right_set;

pub use abi::Abi;
pub use abi_range::AbiRange;
pub use fs::{Fs, FsRight, fs_of_name};
pub use kind::Kind;
pub use laws::{
    a_range_has_a_version_for_each_number, file_rights, numbered_versions, sets_by_rights,
    supported_sets,
};
pub use net::{LARGEST_PORT, Net, NetRight, net_of_name};
pub use right_set::RightSet;
