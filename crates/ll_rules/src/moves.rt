//! Moves of objects, and the answers of a domain to them.

ghost use Rattle.std.specs.Prelude.{◌≡◌, ◌+◌, ◌*◌, ◌≤◌, length, All};
ghost use Rattle.std.specs.List.{list_any};
ghost use Rattle.ll_rights.specs.Rights.{FsRight, has, is_right};
ghost use Rattle.ll_lines.specs.Paths.{front};
ghost use Rattle.ll_tree.specs.Trees.{IsNode, path_at, kind_at};
ghost use Rattle.ll_tree.specs.TreeFacts.{IsTree};
ghost use Rattle.ll_rules.specs.InTree.{AreInTree, all_in_tree, IsTargetIn};
ghost use Rattle.ll_rules.specs.KeptLayers.{domain_of, IsDomainOf};
ghost use Rattle.ll_rules.specs.declared.errno.Errno.TheVariants.{Acces, XDev};
ghost use Rattle.ll_rules.specs.Moves.{source_of, destination_of as destination_path, kind_there, asked_of_source as asked_there, asked_of_destination as asked_here, refused_or, move_verdict};

use crate::cross_directory::CrossDirectoryMove;
use crate::domain::Stack;
use crate::lanes::filled;
use crate::{Domain, Errno, KnownLayers, Layer, LayerSet};
use ll_rights::{Fs, Kind, RightSet};
use ll_tree::{NodeId, Tree};

/// The target of a move.
#[derive(Clone, Copy, Debug, PartialEq, Eq)]
pub enum Target {
    /// A new name in this directory.
    New(NodeId),
    /// The name of this object, which exists already.
    Over(NodeId),
}

/// The way in which an object is moved.
#[derive(Clone, Copy, Debug, PartialEq, Eq)]
pub enum How {
    /// rename(2): the object leaves its directory.
    Rename,
    /// renameat2(2) with `RENAME_EXCHANGE`: the two objects change places.
    Exchange,
    /// link(2): the object gets one more name.
    Link,
}

/// A rename or a link.
#[derive(Clone, Copy, Debug, PartialEq, Eq)]
pub struct Move {
    /// The object that is moved.
    pub moved: NodeId,
    /// Where it goes.
    pub target: Target,
    /// How it is moved.
    pub how: How,
}

/// The answer of a domain to a move.
#[derive(Clone, Copy, Debug, PartialEq, Eq)]
pub enum Verdict {
    /// No layer refuses it.
    Passed,
    /// These layers refuse it with this error.
    Refused(Errno, LayerSet),
}

/// Rights that are asked on a directory.
#[derive(Clone, Copy)]
pub struct Asked {
    /// The directory.
    pub directory: NodeId,
    /// The rights.
    pub rights: Fs,
}

/// The directory that an object is in; the root is in itself.
#[tactic(auto, unfolding(ll_lines::specs::Paths::front))]
fn directory_of(tree: &Tree, object: NodeId) -> NodeId
    requires { IsNode tree.now object }
    ensures path { path_at tree.now result ≡ front (path_at tree.now object) }
    ensures inside { IsNode tree.now result }
    ensures tree { IsTree tree.now }
{
    match tree.parent(object) {
        Some(directory) => directory,
        None => object,
    }
}

/// The kind of the object at the target, if there is one.
fn kind_of_target(tree: &Tree, target: Target) -> Option<Kind>
    requires { IsTargetIn tree.now target }
    ensures { result ≡ kind_there tree.now target }
{
    match target {
        Target::New(_) => None,
        Target::Over(there) => Some(tree.kind(there)),
    }
}

/// The rights that a move asks on the directory that the object is in.
#[tactic(auto, using(crate::proofs::AskedRights::none_asked, crate::proofs::AskedRights::one_asked))]
fn asked_of_source(how: How, moved: Kind, there: Option<Kind>) -> Fs
    ensures { (right : FsRight)
        → has result right ≡ list_any (is_right right) (asked_there how moved there) }
{
    match how {
        How::Rename => moved.remove_right(),
        How::Exchange => match there {
            None => moved.remove_right(),
            Some(there) => moved.remove_right().union(there.make_right()),
        },
        How::Link => Fs::NONE,
    }
}

/// The rights that a move asks on the directory that it goes to.
#[tactic(auto, using(crate::proofs::AskedRights::one_asked))]
fn asked_of_destination(moved: Kind, there: Option<Kind>) -> Fs
    ensures { (right : FsRight)
        → has result right ≡ list_any (is_right right) (asked_here moved there) }
{
    match there {
        None => moved.make_right(),
        Some(there) => moved.make_right().union(there.remove_right()),
    }
}

/// The directory that the object is in, and the rights that a move asks on it.
pub fn leaving(tree: &Tree, attempt: &Move) -> Asked
    requires moved { IsNode tree.now attempt.now.moved }
    requires target { IsTargetIn tree.now attempt.now.target }
    ensures inside { IsNode tree.now result.directory }
    ensures path { path_at tree.now result.directory ≡ source_of tree.now attempt.now }
    ensures rights { (right : FsRight)
        → has result.rights right
        ≡ list_any (is_right right)
        (asked_there attempt.now.how (kind_at tree.now attempt.now.moved)
        (kind_there tree.now attempt.now.target)) }
    ensures tree { IsTree tree.now }
{
    let moved = tree.kind(attempt.moved);
    let there = kind_of_target(tree, attempt.target);
    Asked {
        directory: directory_of(tree, attempt.moved),
        rights: asked_of_source(attempt.how, moved, there),
    }
}

/// The directory that a move goes to, and the rights that the move asks on it.
pub fn entering(tree: &Tree, attempt: &Move) -> Asked
    requires moved { IsNode tree.now attempt.now.moved }
    requires target { IsTargetIn tree.now attempt.now.target }
    ensures inside { IsNode tree.now result.directory }
    ensures path { path_at tree.now result.directory
        ≡ destination_path tree.now attempt.now.target }
    ensures rights { (right : FsRight)
        → has result.rights right
        ≡ list_any (is_right right)
        (asked_here (kind_at tree.now attempt.now.moved)
        (kind_there tree.now attempt.now.target)) }
{
    let moved = tree.kind(attempt.moved);
    let there = kind_of_target(tree, attempt.target);
    Asked {
        directory: match attempt.target {
            Target::New(directory) => directory,
            Target::Over(there) => directory_of(tree, there),
        },
        rights: asked_of_destination(moved, there),
    }
}

/// The answer to a move that some layers deny and some hold back.
fn verdict_of(denied: LayerSet, held_back: LayerSet) -> Verdict
    ensures { result ≡ refused_or Acces denied (refused_or XDev held_back Verdict.Passed) }
{
    if !denied.is_empty() {
        return Verdict::Refused(Errno::Acces, denied);
    }
    if !held_back.is_empty() {
        return Verdict::Refused(Errno::XDev, held_back);
    }
    Verdict::Passed
}

/// The answer of a domain to a rename or a link (landlock(7), "Filesystem actions"). It is `EACCES` with the
/// layers that deny a right that it asks on the two directories, if there are any. Otherwise it passes within
/// one directory. Between two, it is `EXDEV` with the layers that don't grant moving files from or to one of
/// them, or under which a moved object would gain a right.
pub fn check_move(tree: &Tree, layers: &[Layer], domain: &Domain, attempt: &Move) -> Verdict
    requires domain { IsDomainOf layers.now domain.now }
    requires rules { All (AreInTree tree.now) layers.now }
    requires moved { IsNode tree.now attempt.now.moved }
    requires target { IsTargetIn tree.now attempt.now.target }
    ensures { result ≡ move_verdict tree.now
        (all_in_tree tree.now (domain_of layers.now domain.now)) attempt.now }
{
    check_move_counted(tree, layers, domain, attempt).0
}

/// What `check_move` answers, and the number of look-ups that it took: questions to one layer for its rule on
/// one node. For each node from either directory to the root, and for each of the two objects, there are at
/// most as many as there are layers.
pub fn check_move_counted(
    tree: &Tree,
    layers: &[Layer],
    domain: &Domain,
    attempt: &Move,
) -> (Verdict, u64)
    requires domain { IsDomainOf layers.now domain.now }
    requires rules { All (AreInTree tree.now) layers.now }
    requires moved { IsNode tree.now attempt.now.moved }
    requires target { IsTargetIn tree.now attempt.now.target }
    ensures answer { result.0 ≡ move_verdict tree.now
        (all_in_tree tree.now (domain_of layers.now domain.now)) attempt.now }
    ensures look_ups { result.1
        ≤ length domain.now * (length (source_of tree.now attempt.now) + 1
        + (length (destination_path tree.now attempt.now.target) + 1) + 2) }
{
    let known = KnownLayers {
        tree,
        layers,
        grants: &[],
    };
    check_move_by(&known, domain, attempt)
}

/// The same, by what is known of what the layers grant.
pub fn check_move_by(known: &KnownLayers<'_>, domain: &Domain, attempt: &Move) -> (Verdict, u64)
    requires domain { IsDomainOf known.now.layers.now domain.now }
    requires moved { IsNode known.now.tree.now attempt.now.moved }
    requires target { IsTargetIn known.now.tree.now attempt.now.target }
    ensures answer { result.0 ≡ move_verdict known.now.tree.now
        (all_in_tree known.now.tree.now (domain_of known.now.layers.now domain.now))
        attempt.now }
    ensures look_ups { result.1
        ≤ length domain.now * (length (source_of known.now.tree.now attempt.now) + 1
        + (length (destination_path known.now.tree.now attempt.now.target) + 1) + 2) }
{
    let tree = known.tree;
    let stack = Stack {
        tree,
        layers: known.layers,
        ids: domain.layers(),
        grants: known.grants,
    };
    let from = leaving(tree, attempt);
    let to = entering(tree, attempt);
    let (lacking, look_ups) = stack.lacking_of(from.directory, to.directory);
    let denied = filled(lacking.denied(from, to));
    let (held_back, more) = if !denied.is_empty() || to.directory == from.directory {
        (LayerSet::new(), 0)
    } else {
        let attempt = *attempt;
        CrossDirectoryMove {
            stack,
            attempt,
            lacking,
        }
        .held_back()
    };
    (verdict_of(denied, held_back), look_ups + more)
}
