//! What a call wants at a path, and what that asks of the file tree.

use ll_rights::Fs;
use ll_trace::Mode;
use ll_tree::NodeId;

/// Rights that are asked on a node, where the walk up the tree begins.
#[derive(Clone, Copy, Debug, PartialEq, Eq)]
pub struct Request {
    pub node: NodeId,
    pub rights: Fs,
}

/// What a call wants at the place of its path.
#[derive(Clone, Copy, Debug, PartialEq, Eq)]
pub enum Wanted {
    /// An open file: one that is there, or that is made in a gap.
    Open {
        mode: Mode,
        create: bool,
        trunc: bool,
    },
    /// Rights on a regular file itself.
    OnFile(Fs),
    /// A new object in a gap, which asks rights on its directory.
    Make(Fs),
    /// The removal of what is no directory.
    Unlink,
    /// The removal of a directory.
    Rmdir,
}
