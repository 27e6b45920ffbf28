//! Nodes and rulesets for the tests.

ghost use Rattle.std.specs.Prelude.{IfOk};
ghost use Rattle.ll_tree.specs.Trees.{IsNode};
ghost use Rattle.ll_rules.specs.InTree.{AreInTree};

use ll_rights::{Abi, Fs, Net};
use ll_rules::{Layer, RuleFault, Ruleset};
use ll_tree::{NodeId, Place, Tree};
use std::alloc::Global;
use std::test::Fail;

pub(crate) fn node_named(tree: &Tree, path: &str) -> Result<NodeId, Fail>
    ensures { IfOk result (IsNode tree.now) }
{
    match tree.resolve(path) {
        Place::Node(node) => Ok(node),
        _ => Err(Fail::from("the path has no node")),
    }
}

/// A ruleset that handles reading alone.
#[tactic(auto, using(ll_rules::proofs::Adding::no_rules_in_tree))]
pub(crate) fn about_reading(alloc: Global, tree: &Tree) -> Result<Ruleset, Fail>
    ensures { IfOk result (AreInTree tree.now) }
{
    let _tree = tree;
    Ok(Ruleset::create(alloc, Abi::V5, Fs::READ_FILE, Net::NONE)?)
}

/// Grants reading on a path.
#[tactic(auto, using(ll_rules::proofs::Adding::place_of_tree))]
pub(crate) fn grant_reading(rules: &mut Ruleset, tree: &Tree, path: &str) -> Result<(), RuleFault>
    requires { AreInTree tree.now rules.old }
    ensures { AreInTree tree.now rules.new }
{
    let place = tree.resolve(path);
    rules.add_path(tree, place, Fs::READ_FILE)
}

/// A ruleset as a layer.
pub(crate) fn frozen(alloc: Global, tree: &Tree, rules: &Ruleset) -> Result<Layer, Fail>
    requires { AreInTree tree.now rules.now }
    ensures { IfOk result (AreInTree tree.now) }
{
    let _tree = tree;
    Ok(rules.freeze(alloc)?)
}
