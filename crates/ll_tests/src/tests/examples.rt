//! The examples in the documentation of public functions.

ghost use Rattle.ll_tree.specs.Trees.{IsNode};

use ll_rights::{Abi, Fs, Net};
use ll_rules::{Domain, LayerId, LayerSet, Ruleset, check_path};
use ll_shared::SharedMap;
use ll_trace::Trace;
use ll_tree::{NodeId, Place, Tree};
use std::alloc::Global;
use std::slice;
use std::test::Fail;

#[test]
fn a_shared_map(rt: HostRuntime) -> Result<(), Fail> {
    let mut map = SharedMap::new(rt.alloc());
    map.insert(3, 10)?;
    let copy = map.clone()?;
    map.insert(3, 11)?;
    assert_eq!(rt; (map.get(3), copy.get(3)), (Some(&11), Some(&10)));
    Ok(())
}

const TREE: &str = "\
{\"path\":\"/etc\",\"kind\":\"dir\"}
{\"path\":\"/etc/hosts\",\"kind\":\"reg\"}
";

#[test]
fn a_tree(rt: HostRuntime) -> Result<(), Fail> {
    let lines =
        "{\"path\":\"/etc\",\"kind\":\"dir\"}\n{\"path\":\"/etc/hosts\",\"kind\":\"reg\"}\n";
    let tree = Tree::read(rt.alloc(), lines.as_bytes())?;
    assert_eq!(rt; tree.nodes(), 3);
    Ok(())
}

#[test]
fn a_trace(rt: HostRuntime) -> Result<(), Fail> {
    let lines = "{\"op\":\"start\",\"pid\":10}\n{\"op\":\"nnp\",\"pid\":10}\n";
    let trace = Trace::read(rt.alloc(), lines.as_bytes())?;
    assert_eq!(rt; trace.records().len(), 2);
    Ok(())
}

/// The layers that refuse reading on a node, under one layer that handles reading and grants it on one directory.
#[tactic(auto, using(ll_rules::proofs::Adding::no_rules_in_tree, ll_rules::proofs::Adding::place_of_tree))]
fn refused_by(alloc: Global, tree: &Tree, node: NodeId) -> Result<LayerSet, Fail>
    requires { IsNode tree.now node }
{
    let mut rules = Ruleset::create(alloc, Abi::V4, Fs::READ_FILE, Net::NONE)?;
    rules.add_path(tree, tree.resolve("/etc"), Fs::READ_FILE)?;
    let layer = rules.freeze(alloc)?;
    let mut domain = Domain::new();
    domain.push(LayerId(0))?;
    Ok(check_path(tree, slice::from_ref(&layer), &domain, node, Fs::READ_FILE))
}

/// Whether the layer refuses reading on a path.
fn is_refused(alloc: Global, tree: &Tree, path: &str) -> Result<bool, Fail> {
    match tree.resolve(path) {
        Place::Node(node) => Ok(refused_by(alloc, tree, node)?.has(1)),
        _ => Err(Fail::from("the path has no node")),
    }
}

#[test]
fn a_check_of_a_path(rt: HostRuntime) -> Result<(), Fail> {
    let tree = Tree::read(rt.alloc(), TREE.as_bytes())?;
    assert!(rt; !is_refused(rt.alloc(), &tree, "/etc/hosts")?);
    assert!(rt; is_refused(rt.alloc(), &tree, "/")?);
    Ok(())
}
