//! What layers grant on each node of a tree, worked out before anything is checked.

ghost use Rattle.std.specs.Prelude.{◌≡◌, ◌&&◌, ◌<◌, ℕ, List, not, length, IfOk, IfSome, All, Some, slice_get};
ghost use Rattle.ll_rights.specs.Rights.{FsRight, has};
ghost use Rattle.ll_tree.specs.Trees.{Entry, IsNode, path_at};
ghost use Rattle.ll_rules.specs.{Layers.granted, Lanes.lane, Lanes.stacked};
ghost use Rattle.ll_rules.specs.{KeptLayers.layer_at, Checks.lacks as is_lacking_on};
ghost use Rattle.ll_rules.specs.InTree.{AreInTree, in_tree};
ghost use Rattle.ll_rules.specs.Grants.{AreGrants, AreGrantsOf};

use crate::check::layer_of;
use crate::domain::{MOST_LAYERS, Stack};
use crate::lanes::without_granted;
use crate::{Layer, LayerId};
use ll_rights::{Fs, RightSet};
use ll_tree::{NodeId, Tree};
use std::alloc::{AllocError, Global};
use std::marker::Model;

/// What one layer grants on each node of a tree, by its rules on the node and on the directories above it.
#[derive(Drop)]
pub struct Grants {
    sets: Vec<Fs>,
}

impl Model for Grants {
    ghost use Rattle.std.specs.Prelude.{List};
    ghost use Rattle.ll_rights.specs.declared.fs.Fs.{Fs as FsSet};

    ghost Value = { List FsSet };

    ghost view = { λ grants. grants.sets.items };
}

/// What a layer grants on a node, by what it grants on the nodes before it, among which is its directory.
fn granted_on(tree: &Tree, layer: &Layer, sets: &[Fs], node: NodeId) -> Fs
    requires node { IsNode tree.now node }
    requires rules { AreInTree tree.now layer.now }
    requires before { length sets.now ≡ node.0 }
    requires known { AreGrantsOf tree.now layer.now sets.now }
    ensures { (right : FsRight) → has result right
        ≡ granted (in_tree tree.now layer.now) (path_at tree.now node) right }
{
    let own = layer.rule_at(node);
    match tree.parent(node) {
        Some(up) => own.union(sets[up.index() as usize]),
        None => own,
    }
}

impl Grants {
    /// What a layer grants on each node of a tree. The directory of a node is before it.
    fn of(alloc: Global, tree: &Tree, layer: &Layer) -> Result<Grants, AllocError>
        requires { AreInTree tree.now layer.now }
        ensures { IfOk result (AreGrantsOf tree.now layer.now) }
    {
        let mut sets = Vec::with_capacity(alloc, tree.nodes() as usize)?;
        for number in 0..tree.nodes() {
            if let Some(node) = tree.node(number) {
                let set = granted_on(tree, layer, &sets, node);
                sets.push(set)?;
            }
        }
        Ok(Grants { sets })
    }

    /// What the layer grants on a node.
    fn on(&self, node: NodeId) -> Option<Fs>
        ensures { result ≡ slice_get self.now node.0 }
    {
        self.sets.get(node.index() as usize).copied()
    }
}

/// What each of some layers grants on each node of a tree.
pub fn grants_of(alloc: Global, tree: &Tree, layers: &[Layer]) -> Result<Vec<Grants>, AllocError>
    requires { All (AreInTree tree.now) layers.now }
    ensures { IfOk result (λ all. AreGrants tree.now layers.now all.items) }
{
    let mut all = Vec::new(alloc);
    for layer in layers {
        all.reserve(1)?;
        all.push_reserved(Grants::of(alloc, tree, layer)?);
    }
    Ok(all)
}

/// Layers with rules on the nodes of a tree, and what is known of what they grant there.
#[derive(Clone, Copy)]
pub struct KnownLayers<'a> {
    pub tree: &'a Tree,
    pub layers: &'a [Layer],
    pub grants: &'a [Grants],
    pub ghost rules: { All (AreInTree tree.now) layers.now },
    pub ghost known: { AreGrants tree.now layers.now grants.now },
}

/// Whether a layer handles a right and doesn't grant it on a node, for some right that is wanted, if it is known what the
/// layer grants.
pub fn lacks_by(
    grants: &[Grants],
    layers: &[Layer],
    id: LayerId,
    node: NodeId,
    wanted: Fs,
) -> Option<bool>
    requires { id.0 < length layers.now }
    ensures { IfSome result
        (λ lacks. (tree : List Entry) → AreGrants tree layers.now grants.now
        → lacks ≡ is_lacking_on (in_tree tree (layer_at layers.now id)) (path_at tree node)
        wanted) }
{
    let granted = grants.get(id.0 as usize)?.on(node)?;
    let handled = layer_of(layers, id).handled();
    Some(wanted.lacks(handled, granted))
}

impl<'a> Stack<'a> {
    /// What is left in the lanes without what each layer grants on a node, where it is known what the layers grant.
    pub(crate) fn left_by_grants(
        &self,
        node: NodeId,
        lanes: [u32; MOST_LAYERS],
    ) -> Option<[u32; MOST_LAYERS]>
        ensures { IfSome result (λ left. (index : ℕ) (right : FsRight) → has (lane left index) right
            ≡ (has (lane lanes index) right
            && not (granted (in_tree self.now.tree.now (stacked self.now index))
            (path_at self.now.tree.now node) right))) }
    {
        let mut left = lanes;
        for (index, id) in self.ids.iter().enumerate() {
            let grants = self.grants.get(id.0 as usize)?;
            left[index] = without_granted(left[index], grants.on(node)?);
        }
        Some(left)
    }
}
