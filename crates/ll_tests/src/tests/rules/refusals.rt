//! Each test holds whichever one request for memory is refused: the call that it is about answers as with ample memory
//! or says that it has none, what it was lent is as it was, and a second call does what the first was to do.

ghost use Rattle.std.specs.Prelude.{All, IfOk};
ghost use Rattle.ll_rules.specs.InTree.{AreInTree};

use crate::tests::rules::ready::{about_reading, frozen, grant_reading, node_named};
use ll_fixtures::stacked;
use ll_rights::{Abi, Fs, Net};
use ll_rules::{Layer, RuleFault, Ruleset, check_path, check_port};
use ll_tree::Tree;
use std::alloc::Global;
use std::slice;
use std::test::Fail;

/// Two directories.
const SMALL: &str = "{\"path\":\"/a\",\"kind\":\"dir\"}
{\"path\":\"/b\",\"kind\":\"dir\"}
";

/// Whether layers refuse reading on a path.
fn refuse_reading(tree: &Tree, layers: &[Layer], path: &str) -> Result<bool, Fail>
    requires { All (AreInTree tree.now) layers.now }
{
    let domain = stacked(layers)?;
    let node = node_named(tree, path)?;
    Ok(!check_path(tree, layers, &domain, node, Fs::READ_FILE).is_empty())
}

/// Which of the two directories layers refuse to read.
fn refused_by_all(tree: &Tree, layers: &[Layer]) -> Result<(bool, bool), Fail>
    requires { All (AreInTree tree.now) layers.now }
{
    Ok((
        refuse_reading(tree, layers, "/a")?,
        refuse_reading(tree, layers, "/b")?,
    ))
}

/// Which of the two directories a layer refuses to read.
fn refused_by(tree: &Tree, layer: &Layer) -> Result<(bool, bool), Fail>
    requires { AreInTree tree.now layer.now }
{
    refused_by_all(tree, slice::from_ref(layer))
}

/// Which of the two directories a ruleset would refuse to read as a layer.
fn refused(alloc: Global, tree: &Tree, rules: &Ruleset) -> Result<(bool, bool), Fail>
    requires { AreInTree tree.now rules.now }
{
    let layer = frozen(alloc, tree, rules)?;
    refused_by(tree, &layer)
}

/// Grants reading on a directory. Without memory the ruleset refuses what it refused before, and a second try adds the
/// rule; false where it is otherwise.
fn grants(
    alloc: Global,
    tree: &Tree,
    rules: &mut Ruleset,
    path: &str,
    before: (bool, bool),
) -> Result<bool, Fail>
    requires { AreInTree tree.now rules.old }
    ensures { AreInTree tree.now rules.new }
{
    let first = grant_reading(rules, tree, path);
    if first == Ok(()) {
        return Ok(true);
    }
    let kept = refused(alloc, tree, rules)?;
    let second = grant_reading(rules, tree, path);
    Ok(first == Err(RuleFault::Memory) && kept == before && second == Ok(()))
}

/// Grants reading on both directories, and answers the layer that was frozen after the first.
fn layer_between(alloc: Global, tree: &Tree, rules: &mut Ruleset) -> Result<(bool, Layer), Fail>
    requires { AreInTree tree.now rules.old }
    ensures rules { AreInTree tree.now rules.new }
    ensures layer { IfOk result (λ between. AreInTree tree.now between.1) }
{
    let first = grants(alloc, tree, rules, "/b", (true, true))?;
    let layer = frozen(alloc, tree, rules)?;
    let second = grants(alloc, tree, rules, "/a", (true, false))?;
    Ok((first && second, layer))
}

/// Whether a rule was added on each directory, and what the layer that was frozen after the first refuses then.
fn granted_in_turn(
    alloc: Global,
    tree: &Tree,
    rules: &mut Ruleset,
) -> Result<(bool, (bool, bool)), Fail>
    requires { AreInTree tree.now rules.old }
    ensures { AreInTree tree.now rules.new }
{
    let (granted, layer) = layer_between(alloc, tree, rules)?;
    Ok((granted, refused_by(tree, &layer)?))
}

/// Whether both rules were added, and the layer refuses one directory then and the ruleset none.
fn grants_both(alloc: Global, tree: &Tree, rules: &mut Ruleset) -> Result<bool, Fail>
    requires { AreInTree tree.now rules.old }
{
    let granted = granted_in_turn(alloc, tree, rules)?;
    let left = refused(alloc, tree, rules)?;
    Ok(granted == (true, (true, false)) && left == (false, false))
}

/// Whether it is so for a ruleset that handles reading alone.
fn are_granted(alloc: Global, tree: &Tree) -> Result<bool, Fail> {
    let mut rules = about_reading(alloc, tree)?;
    grants_both(alloc, tree, &mut rules)
}

/// Each rule grants on its directory alone, and a layer that was frozen between two rules stays as it was.
#[test]
fn add_path_without_memory(rt: HostRuntime) -> Result<(), Fail> {
    let Ok(tree) = Tree::read(rt.alloc(), SMALL.as_bytes()) else {
        return Ok(());
    };
    assert!(rt; are_granted(rt.alloc(), &tree)?);
    Ok(())
}

/// The ports of the tests of rules for ports: the first two have rules from the beginning.
const PORTS: [u16; 4] = [443, 444, 80, 22];

const TWO_BOUND: [bool; 4] = [true, true, false, false];

/// Whether layers let a port be bound to.
fn is_bound(layers: &[Layer], port: u16) -> Result<bool, Fail> {
    let domain = stacked(layers)?;
    Ok(check_port(layers, &domain, port, Net::BIND_TCP).is_empty())
}

/// Which of the ports layers let be bound to.
fn bound_by(layers: &[Layer]) -> Result<[bool; 4], Fail> {
    let mut bound = [false; 4];
    for (index, port) in PORTS.iter().enumerate() {
        bound[index] = is_bound(layers, *port)?;
    }
    Ok(bound)
}

/// Which of the ports a layer lets be bound to.
fn bound(layer: Layer) -> Result<[bool; 4], Fail> {
    bound_by(slice::from_ref(&layer))
}

/// Lets a port be bound to.
fn add_port(rules: &mut Ruleset, port: u16) -> Result<(), RuleFault> {
    rules.add_port(Abi::V4, u64::from(port), Net::BIND_TCP)
}

/// A ruleset that handles binding alone.
fn about_binding(alloc: Global) -> Result<Ruleset, RuleFault> {
    match Ruleset::create(alloc, Abi::V4, Fs::NONE, Net::BIND_TCP) {
        Ok(rules) => Ok(rules),
        Err(_) => Err(RuleFault::Moot),
    }
}

/// Lets the first two ports be bound to.
fn add_two_ports(rules: &mut Ruleset) -> Result<(), RuleFault> {
    add_port(rules, 443)?;
    add_port(rules, 444)
}

/// A ruleset with a rule on each of two ports, where there is memory for it.
fn rules_on_two_ports(alloc: Global) -> Result<Ruleset, RuleFault> {
    let mut rules = about_binding(alloc)?;
    add_two_ports(&mut rules)?;
    Ok(rules)
}

/// Adds a rule for a third port. Without memory the ruleset is as it was, and a second try adds the rule; false where
/// it is otherwise.
fn adds_port_80(alloc: Global, rules: &mut Ruleset) -> Result<bool, Fail> {
    let first = add_port(rules, 80);
    if first == Ok(()) {
        return Ok(true);
    }
    let kept = bound(rules.freeze(alloc)?)?;
    let second = add_port(rules, 80);
    Ok(first == Err(RuleFault::Memory) && kept == TWO_BOUND && second == Ok(()))
}

/// Adds the rule, and answers what a layer from before it lets be bound to then.
fn bound_before(alloc: Global, rules: &mut Ruleset) -> Result<(bool, [bool; 4]), Fail> {
    let before = rules.freeze(alloc)?;
    let added = adds_port_80(alloc, rules)?;
    Ok((added, bound(before)?))
}

/// A layer shares the rules of its ruleset until one is added to it, and then stays as it was.
#[test]
fn add_port_without_memory(rt: HostRuntime) -> Result<(), Fail> {
    let Ok(mut rules) = rules_on_two_ports(rt.alloc()) else {
        return Ok(());
    };
    let before = bound_before(rt.alloc(), &mut rules)?;
    let after = bound(rules.freeze(rt.alloc())?)?;
    assert!(rt; before == (true, TWO_BOUND) && after == [true, true, true, false]);
    Ok(())
}
