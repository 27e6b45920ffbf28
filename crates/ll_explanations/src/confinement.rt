//! The layers of a process, what they come from, and one of them.

ghost use Rattle.std.specs.Prelude.{◌≡◌, ◌<◌, All, length, slice_get};
ghost use Rattle.std.proofs.Props.{props};
ghost use Rattle.ll_rules.specs.{Grants.AreGrants, InTree.AreInTree, KeptLayers.IsDomainOf};

use ll_origins::ProcessOrigins;
use ll_rules::{Grants, Layer, LayerId};
use ll_tree::Tree;

/// The layers of a process, where they come from, and the tree that they have rules on.
#[derive(Clone, Copy)]
pub(crate) struct Confinement<'a> {
    /// Where what the process has comes from.
    pub(crate) trail: &'a ProcessOrigins,
    /// The file tree.
    pub(crate) tree: &'a Tree,
    /// All layers of the case.
    pub(crate) layers: &'a [Layer],
    /// The indices of the process's own among them, the oldest first.
    pub(crate) domain: &'a [LayerId],
    /// What is known of what the layers grant.
    pub(crate) grants: &'a [Grants],
    ghost known: { AreGrants tree.now layers.now grants.now } by { Prim.hlevel props },
    ghost inside: { IsDomainOf layers.now domain.now } by { Prim.hlevel props },
    ghost rules: { All (AreInTree tree.now) layers.now } by { Prim.hlevel props },
}

/// One layer of a process, by its number.
#[derive(Clone, Copy)]
pub(crate) struct OneLayer<'a> {
    /// All layers of the process.
    pub(crate) ctx: Confinement<'a>,
    /// Its number among these, from 1 on.
    pub(crate) number: u64,
    /// Its index among the layers of the case.
    pub(crate) id: LayerId,
    ghost positive: { 0 < number },
    ghost inside: { id.0 < length ctx.layers.now },
}

/// The index in the trace of the record that made a layer of a process, by the layer's index in the process's domain.
pub(crate) fn made_by(trail: &ProcessOrigins, index: usize) -> Option<u32>
    ensures { result ≡ slice_get trail.now.layers.items index }
{
    trail.layers.get(index).copied()
}
