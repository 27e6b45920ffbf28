//! The versions of Landlock's interface.

use crate::fs::Fs;
use crate::net::Net;

/// A text with the numbers of all versions between two others.
#[macro_export]
macro_rules! with_abi_numbers {
    ($before:literal, $after:literal) => {
        concat!($before, "1 to 5", $after)
    };
}

/// A version of Landlock's interface, as landlock_create_ruleset(2) reports it.
#[derive(Clone, Copy, Debug, PartialEq, Eq, PartialOrd, Ord)]
pub enum Abi {
    /// Linux 5.13: the rights on files and directories.
    V1,
    /// Linux 5.19: `refer`.
    V2,
    /// Linux 6.2: `truncate`.
    V3,
    /// Linux 6.7: TCP ports.
    V4,
    /// Linux 6.10: `ioctl_dev`.
    V5,
}

impl Abi {
    ghost use Rattle.std.specs.Prelude.{◌≡◌};
    ghost use Rattle.ll_rights.specs.Rights as files;
    ghost use Rattle.ll_rights.specs.NetRights as network;
    ghost use Rattle.ll_rights.specs.Abis.{all_versions, number_of, version_of, knows_fs, knows_net};

    /// All versions, the oldest first.
    #[tactic(auto, unfolding(crate::specs::Abis::all_versions))]
    pub fn all() -> &'static [Abi]
        ensures { result.now ≡ all_versions }
    {
        &[Abi::V1, Abi::V2, Abi::V3, Abi::V4, Abi::V5]
    }

    /// The version of a number, where it is one of theirs.
    #[tactic(auto, unfolding(crate::specs::Abis::all_versions))]
    pub fn new(number: u64) -> Option<Abi>
        ensures { result ≡ version_of number }
    {
        Abi::all()
            .iter()
            .copied()
            .find(|abi| abi.number() == number)
    }

    /// The version's number.
    pub fn number(self) -> u64
        ensures { result ≡ number_of self }
    {
        match self {
            Abi::V1 => 1,
            Abi::V2 => 2,
            Abi::V3 => 3,
            Abi::V4 => 4,
            Abi::V5 => 5,
        }
    }

    /// The rights for files that the version knows.
    #[tactic(auto, unfolding(crate::specs::Rights::has))]
    pub fn fs(self) -> Fs
        ensures { (right : files.FsRight) → files.has result right ≡ knows_fs self right }
    {
        match self {
            Abi::V1 => Fs::SINCE_1,
            Abi::V2 => Fs::SINCE_2,
            Abi::V3 | Abi::V4 => Fs::SINCE_3,
            Abi::V5 => Fs::SINCE_5,
        }
    }

    /// The rights for the network that the version knows.
    #[tactic(auto, unfolding(crate::specs::NetRights::has))]
    pub fn net(self) -> Net
        ensures { (right : network.NetRight) → network.has result right ≡ knows_net self right }
    {
        match self {
            Abi::V1 | Abi::V2 | Abi::V3 => Net::NONE,
            Abi::V4 | Abi::V5 => Net::SINCE_4,
        }
    }
}
