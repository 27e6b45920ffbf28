//! The rights that a rule asks for on its object.

ghost use Rattle.std.specs.Prelude.{◌≡◌, ◌&&◌, ◌||◌, not};
ghost use Rattle.ll_tree.specs.Trees.{is_dir};
ghost use Rattle.ll_rules.specs.Rulesets.{are_file_rights};
ghost use Rattle.ll_fitting.specs.Written.{written, listed, listed_for_files};
ghost use Rattle.ll_fitting.specs.Fitting as fitted;

use crate::written::{Access, Layer, Parent, PathRule, PortRule};
use ll_rights::{Abi, Fs, Kind, Net, RightSet};

/// All rights of a list.
pub(crate) fn listed<S: RightSet>(access: Access<S>) -> S
    ensures { result ≡ listed S.family access }
{
    access.named.union(access.grouped)
}

/// The rights that a list stands for on what isn't a directory.
#[tactic(auto, unfolding(ll_rights::specs::Rights::named_rights))]
fn listed_for_files(access: Access<Fs>) -> Fs
    ensures { result ≡ listed_for_files access }
{
    access.named.union(access.grouped.common(Fs::FILE))
}

/// What is left of rights that a rule lists: those that the layer handles and the version knows.
#[tactic(auto, unfolding(crate::specs::Fitting::left_of))]
fn left_of<S: RightSet>(handled: Access<S>, abi: Abi, rights: S) -> S
    ensures { result ≡ fitted.left_of S.family abi handled rights }
{
    rights.common(listed(handled)).supported(abi)
}

/// Whether an object of a kind is a directory.
pub(crate) fn is_directory(kind: Kind) -> bool
    ensures { result ≡ is_dir kind }
{
    matches!(kind, Kind::Dir)
}

/// Whether a rule has a right for files among those that its layer handles, whatever a version knows.
#[tactic(auto, unfolding(crate::specs::Fitting::is_for_files))]
fn is_for_files(layer: &Layer, rule: PathRule) -> bool
    ensures { result ≡ fitted.is_for_files (written layer.now) rule }
{
    !listed_for_files(rule.allowed)
        .common(listed(layer.handled_files))
        .is_empty()
}

/// What counts of a rule on what isn't a directory.
#[tactic(auto, unfolding(crate::specs::Fitting::counted_on_files))]
fn counted_on_files(layer: &Layer, rule: PathRule) -> Fs
    ensures { result ≡ fitted.counted_on_files (written layer.now) rule }
{
    if is_for_files(layer, rule) || rule.included {
        listed_for_files(rule.allowed)
    } else {
        listed(rule.allowed)
    }
}

/// The rights that a rule asks for on an object of a kind.
#[tactic(auto, unfolding(crate::specs::Fitting::rights_on_kind))]
fn rights_on_kind(layer: &Layer, abi: Abi, rule: PathRule, kind: Kind) -> Fs
    ensures { result ≡ fitted.rights_on_kind abi (written layer.now) rule kind }
{
    let counted = if is_directory(kind) {
        listed(rule.allowed)
    } else {
        counted_on_files(layer, rule)
    };
    left_of(layer.handled_files, abi, counted)
}

/// The rights that a rule asks for on its parent at a version: none if it is left out.
pub(crate) fn rights_on(layer: &Layer, abi: Abi, rule: PathRule) -> Fs
    ensures { result ≡ fitted.rights_at abi (written layer.now) rule rule.parent }
{
    match rule.parent {
        Parent::There { kind, .. } => rights_on_kind(layer, abi, rule, kind),
        Parent::Missing if rule.included => Fs::NONE,
        Parent::Missing => left_of(layer.handled_files, abi, listed(rule.allowed)),
    }
}

/// The rights that a rule asks for on its port at a version: none if it is left out.
#[tactic(auto, unfolding(crate::specs::Fitting::rights_on_port))]
pub(crate) fn rights_on_port(layer: &Layer, abi: Abi, rule: PortRule) -> Net
    ensures { result ≡ fitted.rights_on_port abi (written layer.now) rule }
{
    left_of(layer.handled_network, abi, listed(rule.allowed))
}
