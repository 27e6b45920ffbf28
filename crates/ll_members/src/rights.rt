//! The rights that the names of a list stand for.

ghost use Rattle.std.specs.Prelude.{◌≡◌};
ghost use Rattle.ll_members.specs.Slots.{no_rights, with_rights};

use ll_rights::{Fs, Net, RightSet, fs_of_name, net_of_name};

/// The rights for files, and those for the network, that names stand for.
#[derive(Clone, Copy)]
pub(crate) struct Rights {
    pub(crate) fs: Fs,
    pub(crate) net: Net,
}

impl Rights {
    pub(crate) fn none() -> Rights
        ensures { result ≡ no_rights }
    {
        Rights {
            fs: Fs::NONE,
            net: Net::NONE,
        }
    }

    /// These rights and what one more name stands for.
    pub(crate) fn with(self, name: &str) -> Rights
        ensures { result ≡ with_rights self name.now }
    {
        Rights {
            fs: self.fs.union(fs_of_name(name)),
            net: self.net.union(net_of_name(name)),
        }
    }
}
