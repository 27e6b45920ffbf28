//! A call that is to be judged, and what it is held against.

ghost use Rattle.std.specs.Prelude.{◌≡◌, All};
ghost use Rattle.std.proofs.Props.{props};
ghost use Rattle.ll_rules.specs.{Grants.AreGrants, InTree.AreInTree, KeptLayers.IsDomainOf};
ghost use Rattle.ll_trace.specs.FirstPlaces.{first_place};

use ll_rules::{Domain, Grants, KnownLayers, Layer};
use ll_trace::{Op, Seen};
use ll_tree::{Place, Tree};

/// A call as it is seen through a kernel, with what it meets: the tree, and all layers.
#[derive(Clone, Copy)]
pub struct SeenCall<'a> {
    pub seen: &'a Seen<'a>,
    pub tree: &'a Tree,
    pub layers: &'a [Layer],
    /// What is known of what the layers grant.
    pub grants: &'a [Grants],
    /// The place of its first path.
    pub place: Place,
    pub ghost known: { AreGrants tree.now layers.now grants.now },
    pub ghost first: { place ≡ first_place tree.now seen.now },
}

/// A call that no kernel changes, with what it meets.
#[derive(Clone, Copy)]
pub(crate) struct Call<'a> {
    pub(crate) op: &'a Op,
    /// The place of its first path.
    pub(crate) place: Place,
    pub(crate) tree: &'a Tree,
    pub(crate) layers: &'a [Layer],
    pub(crate) grants: &'a [Grants],
    ghost known: { AreGrants tree.now layers.now grants.now } by { Prim.hlevel props },
    ghost first: { place ≡ first_place tree.now op.now } by { Prim.hlevel props },
    ghost rules: { All (AreInTree tree.now) layers.now } by { Prim.hlevel props },
}

/// A call, and the domain of its process: which of the layers it stacks.
#[derive(Clone, Copy)]
pub(crate) struct ConfinedCall<'a> {
    pub(crate) call: Call<'a>,
    pub(crate) domain: &'a Domain,
    ghost indices: { IsDomainOf call.layers.now domain.now } by { Prim.hlevel props },
}

impl<'a> Call<'a> {
    /// The layers, and what is known of what they grant.
    pub(crate) fn known(&self) -> KnownLayers<'a>
        ensures tree { result.tree.now ≡ self.now.tree.now }
        ensures layers { result.layers.now ≡ self.now.layers.now }
    {
        KnownLayers {
            tree: self.tree,
            layers: self.layers,
            grants: self.grants,
        }
    }
}
