//! What holds of the sets of rights by their definitions.

ghost use Rattle.std.specs.Prelude.{◌≡◌, ◌-◌, ◌≤◌, ◌&&◌, ◌||◌, Some, false, length, map, not, suc};
ghost use Rattle.std.specs.List.{range_with_len};
ghost use Rattle.ll_rights.specs.{declared.abi.Abi.Abi as Version, declared.fs.Fs.Fs as FsSet};
ghost use Rattle.ll_rights.specs.declared.net.Net.{Net as NetSet};
ghost use Rattle.ll_rights.specs.Rights as files;
ghost use Rattle.ll_rights.specs.NetRights as network;
ghost use Rattle.ll_rights.specs.Abis.{all_versions, number_of, version_of, knows_fs, knows_net};
ghost use Rattle.ll_rights.specs.AbiRanges.{IsRising, Range, versions_in};
ghost use Rattle.ll_rights.specs.Supported.{supported_fs, supported_net};

use crate::fs::Fs;

/// The versions have the numbers 1, 2 and so on, and each is that of its number.
pub fn numbered_versions()
    ensures numbers { map number_of all_versions ≡ range_with_len 1 (length all_versions) }
    ensures found { (abi : Version) → version_of (number_of abi) ≡ Some abi }
{}

/// The rights of [`Fs::FILE`] are those that apply to what isn't a directory (landlock(7),
/// "Filesystem actions").
#[tactic(auto, unfolding(crate::specs::Rights::has))]
pub fn file_rights()
    ensures { (right : files.FsRight) → files.has Fs.FILE right ≡ files.is_file_right right }
{}

/// A set of one right has that right alone, and a union has what either set has.
#[tactic(auto, using(crate::proofs::Sets::sets_by_rights))]
pub fn sets_by_rights()
    ensures only_fs { (right one : files.FsRight)
        → files.has (files.only one) right ≡ files.is_right right one }
    ensures united_fs { (a b : FsSet) (right : files.FsRight)
        → files.has (files.united a b) right ≡ (files.has a right || files.has b right) }
    ensures only_net { (right one : network.NetRight)
        → network.has (network.only one) right ≡ network.is_right right one }
    ensures united_net { (a b : NetSet) (right : network.NetRight)
        → network.has (network.united a b) right ≡ (network.has a right || network.has b right) }
{}

/// What is supported of a set are the rights of it that the version knows, and the right of any other name. So a version
/// that knows all named rights of a set leaves the set as it is, and an older version keeps as much of what a newer one
/// left as of the whole.
#[tactic(auto, using(crate::proofs::Supported::supported_sets))]
pub fn supported_sets()
    ensures fs { (abi : Version) (set : FsSet) (right : files.FsRight)
        → files.has (supported_fs abi set) right
        ≡ (files.has set right && (knows_fs abi right || files.is_right right files.other)) }
    ensures net { (abi : Version) (set : NetSet) (right : network.NetRight)
        → network.has (supported_net abi set) right
        ≡ (network.has set right && (knows_net abi right || network.is_right right network.other)) }
    ensures known_fs { (abi : Version) (set : FsSet)
        → ((right : files.FsRight)
        → (files.has set right && not (knows_fs abi right || files.is_right right files.other))
        ≡ false)
        → supported_fs abi set ≡ set }
    ensures known_net { (abi : Version) (set : NetSet)
        → ((right : network.NetRight)
        → (network.has set right
        && not (knows_net abi right || network.is_right right network.other)) ≡ false)
        → supported_net abi set ≡ set }
    ensures older_fs { (older newer : Version) (set : FsSet) → number_of older ≤ number_of newer
        → supported_fs older (supported_fs newer set) ≡ supported_fs older set }
    ensures older_net { (older newer : Version) (set : NetSet) → number_of older ≤ number_of newer
        → supported_net older (supported_net newer set) ≡ supported_net older set }
{}

/// A range has a version for each number from that of its oldest to that of its newest, and so at
/// least one.
#[tactic(auto, using(crate::proofs::AbiRanges::versions_numbered, crate::proofs::AbiRanges::at_least_one))]
pub fn a_range_has_a_version_for_each_number()
    ensures numbers { (range : Range) → map number_of (versions_in range)
        ≡ range_with_len (number_of range.oldest)
        (suc (number_of range.newest) - number_of range.oldest) }
    ensures at_least_one { (range : Range) → IsRising range → 1 ≤ length (versions_in range) }
{}
