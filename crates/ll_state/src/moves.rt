//! Which renames and links the policy is asked about.

ghost use Rattle.std.specs.Prelude.{◌≡◌, ◌<◌, false, IfSome};
ghost use Rattle.ll_tree.specs.{Trees.IsNode, TreeFacts.IsPlace};
ghost use Rattle.ll_semantics.specs.Fits.{IsFitMove};
ghost use Rattle.ll_semantics.specs.Moves.{is_root, is_mixed, rename_into, rename_onto, rename_to, rename_move, link_to, link_move};

use ll_rules::{How, Move, Target};
use ll_tree::{NodeId, Place, Tree};

/// Whether one of two nodes is a directory and the other isn't.
fn is_mixed(tree: &Tree, a: NodeId, b: NodeId) -> bool
    requires a_is_node { IsNode tree.now a }
    requires b_is_node { IsNode tree.now b }
    ensures { result ≡ is_mixed tree.now a b }
{
    tree.is_directory(a) != tree.is_directory(b)
}

/// A rename into a gap: nothing goes under itself.
#[tactic(auto, unfolding(ll_semantics::specs::Moves::rename_into))]
fn rename_into(tree: &Tree, from: NodeId, directory: NodeId, exchange: bool) -> Option<Move>
    requires from_is_node { IsNode tree.now from }
    requires not_root { is_root from ≡ false }
    requires place { IsPlace tree.now (Place.Gap directory) }
    ensures exact { result ≡ rename_into tree.now from directory exchange }
    ensures fit { IfSome result (IsFitMove tree.now) }
{
    if exchange || tree.is_above(from, directory) {
        return None;
    }
    Some(Move {
        moved: from,
        target: Target::New(directory),
        how: How::Rename,
    })
}

/// A rename onto an object, or an exchange with it: not onto the root, itself, what is under it or what it
/// is in, and without exchange no directory onto a file or a file onto a directory.
#[tactic(auto, unfolding(ll_semantics::specs::Moves::rename_onto))]
fn rename_onto(tree: &Tree, from: NodeId, to: NodeId, exchange: bool) -> Option<Move>
    requires from_is_node { IsNode tree.now from }
    requires not_root { is_root from ≡ false }
    requires to_is_node { IsNode tree.now to }
    ensures exact { result ≡ rename_onto tree.now from to exchange }
    ensures fit { IfSome result (IsFitMove tree.now) }
{
    if to.is_root() || tree.is_above(from, to) || tree.is_above(to, from) {
        return None;
    }
    let how = if exchange { How::Exchange } else { How::Rename };
    if !exchange && is_mixed(tree, from, to) {
        return None;
    }
    Some(Move {
        moved: from,
        target: Target::Over(to),
        how,
    })
}

/// What rename(2) asks: nothing where no object is there to be moved, or where the tree itself decides the call.
#[tactic(auto, unfolding(ll_semantics::specs::Moves::rename_move, ll_semantics::specs::Moves::rename_to))]
pub fn rename_move(tree: &Tree, from: Place, to: Place, exchange: bool) -> Option<Move>
    requires from_place { IsPlace tree.now from }
    requires to_place { IsPlace tree.now to }
    ensures exact { result ≡ rename_move tree.now from to exchange }
    ensures fit { IfSome result (IsFitMove tree.now) }
{
    let Place::Node(from) = from else {
        return None;
    };
    if from.is_root() {
        return None;
    }
    match to {
        Place::Gap(directory) => rename_into(tree, from, directory, exchange),
        Place::Node(to) => rename_onto(tree, from, to, exchange),
        Place::Nowhere => None,
    }
}

/// What link(2) asks: an object that isn't a directory gets one more name, in a gap.
#[tactic(auto, unfolding(ll_semantics::specs::Moves::link_move, ll_semantics::specs::Moves::link_to))]
pub fn link_move(tree: &Tree, from: Place, to: Place) -> Option<Move>
    requires from_place { IsPlace tree.now from }
    requires to_place { IsPlace tree.now to }
    ensures exact { result ≡ link_move tree.now from to }
    ensures fit { IfSome result (IsFitMove tree.now) }
{
    let (Place::Node(from), Place::Gap(directory)) = (from, to) else {
        return None;
    };
    if from.is_root() || tree.is_directory(from) {
        return None;
    }
    Some(Move {
        moved: from,
        target: Target::New(directory),
        how: How::Link,
    })
}
