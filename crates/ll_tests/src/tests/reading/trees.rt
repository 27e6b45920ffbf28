//! What a tree says of its nodes.

ghost use Rattle.std.specs.Prelude.{IfOk};
ghost use Rattle.ll_tree.specs.Trees.{IsNode};

use ll_fixtures::TREE;
use ll_rights::Kind;
use ll_tree::{NodeId, Place, Tree};
use std::test::Fail;

fn node_named(tree: &Tree, path: &str) -> Result<NodeId, Fail>
    ensures { IfOk result (IsNode tree.now) }
{
    match tree.resolve(path) {
        Place::Node(node) => Ok(node),
        _ => Err(Fail::from("the path has no node")),
    }
}

/// The objects in their order, each with the directory that it is in.
const OBJECTS: [(&str, Kind, u32, &str); 7] = [
    ("/a", Kind::Dir, 1, "/"),
    ("/b", Kind::Dir, 1, "/"),
    ("/a/s", Kind::Dir, 2, "/a"),
    ("/dev", Kind::Dir, 1, "/"),
    ("/a/f", Kind::Reg, 2, "/a"),
    ("/b/g", Kind::Reg, 2, "/b"),
    ("/dev/tty", Kind::Char, 2, "/dev"),
];

/// Whether a node is an object of this kind and depth in a directory.
fn stands_in(tree: &Tree, directory: NodeId, node: NodeId, kind: Kind, depth: u32) -> bool
    requires directory { IsNode tree.now directory }
    requires node { IsNode tree.now node }
{
    tree.kind(node) == kind
        && tree.depth(node) == depth
        && tree.parent(node) == Some(directory)
        && tree.is_above(directory, node)
        && !tree.is_above(node, directory)
}

/// Whether the object of this number is the one that is listed so.
fn is_listed(
    tree: &Tree,
    number: usize,
    (path, kind, depth, above): (&str, Kind, u32, &str),
) -> Result<bool, Fail> {
    let node = node_named(tree, path)?;
    let directory = node_named(tree, above)?;
    Ok(
        node.index() as usize == number
            && tree.text(node) == path
            && stands_in(tree, directory, node, kind, depth),
    )
}

#[test]
fn the_worked_tree(rt: HostRuntime) -> Result<(), Fail> {
    let tree = Tree::read(rt.alloc(), TREE.as_bytes())?;
    assert_eq!(rt; tree.nodes(), 8);
    for (index, object) in OBJECTS.iter().enumerate() {
        assert!(rt; is_listed(&tree, index + 1, *object)?, "{index}");
    }
    Ok(())
}

#[test]
fn nodes_by_their_numbers(rt: HostRuntime) -> Result<(), Fail> {
    let tree = Tree::read(rt.alloc(), TREE.as_bytes())?;
    assert_eq!(rt; tree.node(5), Some(node_named(&tree, "/a/f")?));
    assert_eq!(rt; tree.node(8), None);
    Ok(())
}

/// A place, as a table of small places gives it back.
fn kept_small(tree: &Tree, path: &str) -> Place {
    tree.small(tree.resolve(path)).again().place()
}

#[test]
fn small_places(rt: HostRuntime) -> Result<(), Fail> {
    let tree = Tree::read(rt.alloc(), TREE.as_bytes())?;
    let directory = node_named(&tree, "/a")?;
    assert_eq!(rt;
        kept_small(&tree, "/a/f"),
        Place::Node(node_named(&tree, "/a/f")?)
    );
    assert_eq!(rt; kept_small(&tree, "/a/none"), Place::Gap(directory));
    assert_eq!(rt; kept_small(&tree, "/none/x"), Place::Nowhere);
    Ok(())
}
