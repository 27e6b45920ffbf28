//! The rights that pass a test, right by right: those that a layer lacks on a node, that an object would gain in a
//! directory, or that one set has and another hasn't.

ghost use Rattle.std.specs.Prelude.{◌≡◌, ◌&&◌, ◌||◌, ◌∷◌, [], not};
ghost use Rattle.ll_rights.specs.CodeRights.{fs_right};
ghost use Rattle.ll_rights.specs.Rights as files;
ghost use Rattle.ll_tree.specs.Trees.{IsNode, is_dir, kind_at, path_at};
ghost use Rattle.ll_rules.specs.Checks.{lacks as is_lacking_on};
ghost use Rattle.ll_explanations.specs.Confined.{rules_of};
ghost use Rattle.ll_explanations.specs.Lacked.{IsTest, gainable, lacked, passes};

use crate::confinement::{Confinement, OneLayer};
use ll_rights::{Fs, FsRight, RightSet};
use ll_rules::{Domain, LayerId, check_path, lacks_by};
use ll_tree::{NodeId, Tree};

/// A test that rights pass or don't.
#[derive(Clone, Copy)]
pub(crate) enum Test<'a> {
    /// Is it asked, and does a layer lack it on a node?
    Lacking {
        layer: &'a OneLayer<'a>,
        node: NodeId,
        asked: Fs,
    },
    /// Would an object gain it in a directory, under a layer?
    Gaining {
        layer: &'a OneLayer<'a>,
        object: NodeId,
        directory: NodeId,
    },
    /// Is it in a set, and not in another?
    Beyond {
        rights: Fs,
        whole: Fs,
    },
}

/// The domain of one layer.
pub(crate) fn alone(id: LayerId) -> Domain
    ensures { result ≡ id ∷ [] }
{
    let mut domain = Domain::new();
    match domain.push(id) {
        Ok(()) => domain,
        Err(_) => unreachable!(),
    }
}

/// Whether a layer handles a right of a set and doesn't grant it on a node.
fn lacks(layer: &OneLayer, node: NodeId, rights: Fs) -> bool
    requires { IsNode layer.now.ctx.tree.now node }
    ensures { result
        ≡ is_lacking_on (rules_of layer.now) (path_at layer.now.ctx.tree.now node) rights }
{
    let Confinement {
        tree,
        layers,
        grants,
        ..
    } = layer.ctx;
    match lacks_by(grants, layers, layer.id, node, rights) {
        Some(lacks) => lacks,
        None => !check_path(tree, layers, &alone(layer.id), node, rights).is_empty(),
    }
}

/// Whether a right is in a set, and a layer handles it and doesn't grant it on a node.
fn is_missing(layer: &OneLayer, node: NodeId, asked: Fs, right: FsRight) -> bool
    requires { IsNode layer.now.ctx.tree.now node }
    ensures { result
        ≡ lacked (rules_of layer.now) (path_at layer.now.ctx.tree.now node) asked (fs_right right) }
{
    if asked.has(right) {
        lacks(layer, node, right.set())
    } else {
        false
    }
}

/// Whether a right is one that files have.
#[tactic(auto, using(crate::proofs::RightIndices::is_file))]
fn is_file_right(right: FsRight) -> bool
    ensures { result ≡ files.is_file_right (fs_right right) }
{
    Fs::FILE.has(right)
}

/// Whether a right counts for an object: each does for a directory, and those that files have for any other object.
fn counts_for(tree: &Tree, object: NodeId, right: FsRight) -> bool
    requires { IsNode tree.now object }
    ensures { result
        ≡ (is_dir (kind_at tree.now object) || files.is_file_right (fs_right right)) }
{
    tree.is_directory(object) || is_file_right(right)
}

/// Whether an object would gain a right in a directory, under a layer.
fn is_gained(layer: &OneLayer, object: NodeId, directory: NodeId, right: FsRight) -> bool
    requires object { IsNode layer.now.ctx.tree.now object }
    requires directory { IsNode layer.now.ctx.tree.now directory }
    ensures { result ≡ gainable (rules_of layer.now) (kind_at layer.now.ctx.tree.now object)
        (path_at layer.now.ctx.tree.now object)
        (path_at layer.now.ctx.tree.now directory) (fs_right right) }
{
    if !counts_for(layer.ctx.tree, object, right) {
        return false;
    }
    let set = right.set();
    if !lacks(layer, object, set) {
        return false;
    }
    !lacks(layer, directory, set)
}

/// Whether a set has a right, and another hasn't.
fn is_beyond(rights: Fs, whole: Fs, right: FsRight) -> bool
    ensures { result
        ≡ (files.has rights (fs_right right) && not (files.has whole (fs_right right))) }
{
    rights.has(right) && !whole.has(right)
}

/// Whether a right passes a test.
fn does_pass(test: Test, right: FsRight) -> bool
    requires { IsTest test }
    ensures { result ≡ passes test.entry (fs_right right) }
{
    match test {
        Test::Lacking { layer, node, asked } => is_missing(layer, node, asked, right),
        Test::Gaining {
            layer,
            object,
            directory,
        } => is_gained(layer, object, directory, right),
        Test::Beyond { rights, whole } => is_beyond(rights, whole, right),
    }
}

/// The rights that pass a test.
pub(crate) fn passing(test: Test) -> Fs
    requires { IsTest test }
    ensures { (right : files.FsRight) → files.has result right ≡ passes test.entry right }
{
    let mut rights = Fs::NONE;
    for right in FsRight::all() {
        if does_pass(test, *right) {
            rights = rights.union(right.set());
        }
    }
    rights
}
