//! How many look-ups checks take, and a ruleset that grants on many nodes.

ghost use Rattle.std.specs.Prelude.{All, IfOk};
ghost use Rattle.ll_tree.specs.Trees.{IsNode};
ghost use Rattle.ll_rules.specs.InTree.{AreInTree, IsTargetIn};

use crate::tests::rules::ready::{about_reading, frozen, grant_reading, node_named};
use ll_fixtures::{TREE, stacked};
use ll_rights::{Fs, RightSet};
use ll_rules::{
    Errno, How, Layer, LayerSet, Move, Target, Verdict, check_move_counted, check_path_counted,
    entering, leaving,
};
use ll_tree::{NodeId, Tree};
use std::alloc::Global;
use std::slice;
use std::test::Fail;

/// The layer that handles reading, and grants it on one directory.
fn layer_with(alloc: Global, tree: &Tree, granted: &str) -> Result<Layer, Fail>
    ensures { IfOk result (AreInTree tree.now) }
{
    let mut rules = about_reading(alloc, tree)?;
    grant_reading(&mut rules, tree, granted)?;
    frozen(alloc, tree, &rules)
}

/// How many look-ups a check of reading takes.
fn look_ups_to_read(tree: &Tree, layers: &[Layer], path: &str) -> Result<u64, Fail>
    requires { All (AreInTree tree.now) layers.now }
{
    let domain = stacked(layers)?;
    let node = node_named(tree, path)?;
    Ok(check_path_counted(tree, layers, &domain, node, Fs::READ_FILE).1)
}

fn look_ups_of_one_layer(alloc: Global, tree: &Tree) -> Result<u64, Fail> {
    let layer = layer_with(alloc, tree, "/a")?;
    look_ups_to_read(tree, slice::from_ref(&layer), "/b/g")
}

fn look_ups_of_two_layers(alloc: Global, tree: &Tree) -> Result<u64, Fail> {
    let layers = [
        layer_with(alloc, tree, "/a")?,
        layer_with(alloc, tree, "/b")?,
    ];
    look_ups_to_read(tree, &layers, "/dev/tty")
}

/// The look-ups under one layer, under two and under none.
fn look_ups(alloc: Global, tree: &Tree) -> Result<[u64; 3], Fail> {
    let one = look_ups_of_one_layer(alloc, tree)?;
    let two = look_ups_of_two_layers(alloc, tree)?;
    let none = look_ups_to_read(tree, &[], "/dev/tty")?;
    Ok([one, two, none])
}

/// A layer that refuses is asked on every node from the object to the root.
#[test]
fn look_ups_on_paths(rt: HostRuntime) -> Result<(), Fail> {
    let tree = Tree::read(rt.alloc(), TREE.as_bytes())?;
    assert_eq!(rt; look_ups(rt.alloc(), &tree)?, [3, 6, 0]);
    Ok(())
}

/// A rename of one file onto another in another directory.
fn rename_onto(tree: &Tree) -> Result<Move, Fail>
    ensures moved { IfOk result (λ attempt. IsNode tree.now attempt.moved) }
    ensures target { IfOk result (λ attempt. IsTargetIn tree.now attempt.target) }
{
    Ok(Move {
        moved: node_named(tree, "/a/f")?,
        target: Target::Over(node_named(tree, "/b/g")?),
        how: How::Rename,
    })
}

/// The answer to the rename under layers, and its look-ups.
fn renamed_under(tree: &Tree, layers: &[Layer]) -> Result<(Verdict, u64), Fail>
    requires { All (AreInTree tree.now) layers.now }
{
    let domain = stacked(layers)?;
    let attempt = rename_onto(tree)?;
    Ok(check_move_counted(tree, layers, &domain, &attempt))
}

/// The layer that handles reading, and grants it nowhere.
fn layer_without_rules(alloc: Global, tree: &Tree) -> Result<Layer, Fail>
    ensures { IfOk result (AreInTree tree.now) }
{
    let rules = about_reading(alloc, tree)?;
    frozen(alloc, tree, &rules)
}

/// Whether layer 1 alone refuses a move from one directory to another.
fn is_refused_by_the_first(verdict: &Verdict) -> bool {
    match verdict {
        Verdict::Refused(Errno::XDev, set) => {
            set.has(1) && !set.has(2) && set.union(LayerSet::new()) == *set
        }
        _ => false,
    }
}

#[test]
fn look_ups_of_a_move(rt: HostRuntime) -> Result<(), Fail> {
    let tree = Tree::read(rt.alloc(), TREE.as_bytes())?;
    let layer = layer_without_rules(rt.alloc(), &tree)?;
    let (verdict, look_ups) = renamed_under(&tree, slice::from_ref(&layer))?;
    assert!(rt; is_refused_by_the_first(&verdict), "{verdict:?}");
    // Both directories and the root above each have to be asked about.
    assert!(rt; look_ups >= 4 && look_ups <= 6, "{look_ups} look-ups");
    Ok(())
}

/// The look-ups of the rename under two layers that each refuse it.
fn look_ups_of_a_move_twice(alloc: Global, tree: &Tree) -> Result<u64, Fail> {
    let layers = [
        layer_without_rules(alloc, tree)?,
        layer_without_rules(alloc, tree)?,
    ];
    Ok(renamed_under(tree, &layers)?.1)
}

/// Each of two layers has to be asked what one alone is.
#[test]
fn look_ups_of_a_move_under_two_layers(rt: HostRuntime) -> Result<(), Fail> {
    let tree = Tree::read(rt.alloc(), TREE.as_bytes())?;
    let look_ups = look_ups_of_a_move_twice(rt.alloc(), &tree)?;
    assert!(rt; look_ups >= 8 && look_ups <= 12, "{look_ups} look-ups");
    Ok(())
}

/// The rights that the rename asks of the directory of each of its files.
fn asked(tree: &Tree) -> Result<[(NodeId, Fs); 2], Fail> {
    let attempt = rename_onto(tree)?;
    let (from, to) = (leaving(tree, &attempt), entering(tree, &attempt));
    Ok([(from.directory, from.rights), (to.directory, to.rights)])
}

/// landlock(7), "Filesystem actions": a rename onto a file takes the right to remove a file of both directories, and
/// the right to make one of the directory that it goes to.
fn to_be_asked(tree: &Tree) -> Result<[(NodeId, Fs); 2], Fail> {
    let (from, to) = (node_named(tree, "/a")?, node_named(tree, "/b")?);
    let of_new_name = Fs::MAKE_REG.union(Fs::REMOVE_FILE);
    Ok([(from, Fs::REMOVE_FILE), (to, of_new_name)])
}

#[test]
fn asked_of_both_directories(rt: HostRuntime) -> Result<(), Fail> {
    let tree = Tree::read(rt.alloc(), TREE.as_bytes())?;
    assert_eq!(rt; asked(&tree)?, to_be_asked(&tree)?);
    Ok(())
}
