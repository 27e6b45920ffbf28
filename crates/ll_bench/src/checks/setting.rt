//! A deep tree, objects at several depths of it, and layers in each form.

ghost use Rattle.std.specs.Prelude.{All, IfOk};
ghost use Rattle.ll_tree.specs.Trees.{IsNode};

use crate::checks::filtered::FilteredLayer;
use anyhow::{Context, Result};
use bitflags::Flags;
use ll_fixtures::{PlainLayer, Sandbox};
use ll_rights::{Fs, Net};
use ll_tree::{NodeId, Place, Tree};
use std::alloc::Global;

/// How many objects are checked in turn at each depth.
const OBJECTS: u32 = 8;

/// How many directories beside the way down have rules.
const ASIDE: u32 = 16;

/// How deep the directories go.
const DEEPEST: u32 = 40;

/// The path of the directory at a depth, with a slash at its end.
fn way_down(alloc: Global, depth: u32) -> Result<String> {
    let mut path = String::from_str(alloc, "/")?;
    for _ in 0..depth {
        path.push_str("d/")?;
    }
    Ok(path)
}

/// Lists the directories beside the way down.
fn list_aside(lines: &mut String) -> Result<()> {
    for number in 0..ASIDE {
        writeln!(lines, "{{\"path\":\"/r{number}\",\"kind\":\"dir\"}}")?;
    }
    Ok(())
}

/// Lists the objects in a directory of the way, and the next directory.
fn list_in(lines: &mut String, way: &str) -> Result<()> {
    writeln!(lines, "{{\"path\":\"{way}d\",\"kind\":\"dir\"}}")?;
    for number in 0..OBJECTS {
        writeln!(lines, "{{\"path\":\"{way}f{number}\",\"kind\":\"reg\"}}")?;
    }
    Ok(())
}

/// Lists a chain of directories, with objects at each depth.
fn list_down(alloc: Global, lines: &mut String) -> Result<()> {
    for depth in 0..DEEPEST {
        let way = way_down(alloc, depth)?;
        list_in(lines, &way)?;
    }
    Ok(())
}

/// The tree that is checked.
pub(crate) fn deep_tree(alloc: Global) -> Result<Tree> {
    let mut lines = String::new(alloc);
    list_aside(&mut lines)?;
    list_down(alloc, &mut lines)?;
    Tree::read(alloc, lines.as_bytes())
        .ok()
        .context("the tree reads")
}

/// The node of an object of the tree.
fn node_named(tree: &Tree, path: &str) -> Result<NodeId>
    ensures { IfOk result (IsNode tree.now) }
{
    match tree.resolve(path) {
        Place::Node(node) => Ok(node),
        _ => None.context("the object is in the tree"),
    }
}

/// The objects at a depth.
pub(crate) fn objects_at(alloc: Global, tree: &Tree, depth: u32) -> Result<Vec<NodeId>>
    ensures { IfOk result (λ nodes. All (IsNode tree.now) nodes.items) }
{
    let way = way_down(alloc, depth.saturating_sub(1))?;
    (0..OBJECTS)
        .map(
            |number| -> Result<NodeId>
                ensures { IfOk result (IsNode tree.entry.now) }
            {
                let path = format!(in alloc; "{way}f{number}")?;
                node_named(tree, &path)
            },
        )
        .try_collect(alloc)
}

/// Layers of the same rules in each form.
#[derive(Drop)]
pub(crate) struct Layers<'t> {
    pub lanes: Sandbox<'t>,
    pub plain: Vec<PlainLayer>,
    pub filtered: Vec<FilteredLayer>,
}

/// The path of the directory of this number beside the way down, or else of the first one on the way.
fn path_of(alloc: Global, number: u32) -> Result<String> {
    if number < ASIDE {
        Ok(format!(in alloc; "/r{number}")?)
    } else {
        Ok(String::from_str(alloc, "/d")?)
    }
}

/// Whether the layer of a number has a rule on that directory.
fn has_rule(aside: u32, number: u32, granting: bool) -> bool {
    if aside < ASIDE {
        aside % 2 == number % 2
    } else {
        granting
    }
}

/// Grants reading in a directory, in each form.
fn grant(
    sandbox: &mut Sandbox<'_>,
    plain: &mut PlainLayer,
    filtered: &mut FilteredLayer,
    path: &str,
) -> Result<()> {
    let node = node_named(sandbox.tree, path)?;
    sandbox
        .grant(node, Fs::READ_FILE)
        .ok()
        .context("the rule is added")?;
    plain.grant(node, Fs::READ_FILE)?;
    filtered.grant(node, Fs::READ_FILE)?;
    Ok(())
}

/// Grants reading in the directories that the layer of a number has rules on.
fn grant_all(
    alloc: Global,
    sandbox: &mut Sandbox<'_>,
    plain: &mut PlainLayer,
    filtered: &mut FilteredLayer,
    number: u32,
    granting: bool,
) -> Result<()> {
    for aside in 0..ASIDE + 1 {
        if has_rule(aside, number, granting) {
            let path = path_of(alloc, aside)?;
            grant(sandbox, plain, filtered, &path)?;
        }
    }
    Ok(())
}

/// Stacks the layer of a number: it handles every right, reads in half of the directories beside the way down, and
/// where `granting` in the first directory of the way.
fn stack_one(alloc: Global, layers: &mut Layers<'_>, number: u32, granting: bool) -> Result<()> {
    let handled = Fs::from_bits_retain(0xffff);
    layers
        .lanes
        .create(alloc, handled, Net::NONE)
        .ok()
        .context("the ruleset is created")?;
    let mut plain = PlainLayer::new(alloc, handled);
    let mut filtered = FilteredLayer::new(alloc, handled);
    grant_all(
        alloc,
        &mut layers.lanes,
        &mut plain,
        &mut filtered,
        number,
        granting,
    )?;
    layers.plain.push(plain)?;
    layers.filtered.push(filtered)?;
    layers
        .lanes
        .restrict(alloc)
        .ok()
        .context("the layer is stacked")
}

/// Stacks this many layers, at most sixteen.
fn stack(alloc: Global, layers: &mut Layers<'_>, count: u32, granting: bool) -> Result<()> {
    for number in 0..count.min(16) {
        stack_one(alloc, layers, number, granting)?;
    }
    Ok(())
}

/// This many layers, at most sixteen.
pub(crate) fn layers_of<'t>(
    alloc: Global,
    tree: &'t Tree,
    count: u32,
    granting: bool,
) -> Result<Layers<'t>> {
    let mut layers = Layers {
        lanes: Sandbox::new(alloc, tree),
        plain: Vec::new(alloc),
        filtered: Vec::new(alloc),
    };
    stack(alloc, &mut layers, count, granting)?;
    Ok(layers)
}
