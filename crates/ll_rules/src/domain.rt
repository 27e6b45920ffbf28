//! Domains: the layers that a process has stacked, and the data of a climb by them.

ghost use Rattle.std.specs.Prelude.{◌≡◌, ◌≤◌, [], ◌∷◌, ◌++◌, ◌↔◌, length, IsErr, All, OnOk, OnErr};
ghost use Rattle.std.proofs.Props.{props};
ghost use Rattle.ll_rules.specs.declared.domain.TheConstants.{MOST_LAYERS};
ghost use Rattle.ll_rules.specs.{Grants.AreGrants, InTree.AreInTree, KeptLayers.IsDomainOf};

use crate::{Full, Grants, Layer};
use arrayvec::ArrayVec;
use ll_tree::Tree;
use std::marker::Model;

/// The most layers of a domain (landlock_restrict_self(2), "ERRORS").
pub const MOST_LAYERS: usize = 16;

/// A layer, by its index in a slice of layers.
#[derive(Clone, Copy, Debug, Default, PartialEq, Eq)]
pub struct LayerId(pub u32);

/// The layers that a process has stacked, the oldest first; at most sixteen
/// (landlock_restrict_self(2), "ERRORS").
#[derive(Clone, Debug, Drop)]
pub struct Domain {
    ids: ArrayVec<LayerId, MOST_LAYERS>,
}

impl Model for Domain {
    ghost use Rattle.std.specs.Prelude.{List};
    ghost use Rattle.ll_rules.specs.declared.domain.LayerId.{LayerId};

    ghost Value = { List LayerId };

    ghost view = { λ d. d.ids.items };
}

impl Domain {
    /// No layer.
    pub fn new() -> Domain
        ensures { result ≡ [] }
    {
        let ids = ArrayVec::new();
        Domain { ids }
    }

    /// The layers, the oldest first.
    pub fn layers(&self) -> &[LayerId]
        ensures value { result.now ≡ self.now }
        ensures at_most_sixteen { length self.now ≤ MOST_LAYERS }
    {
        self.ids.as_slice()
    }

    /// Stacks one more layer.
    pub fn push(&mut self, layer: LayerId) -> Result<(), Full>
        ensures full { IsErr result ↔ (length self.old ≡ MOST_LAYERS) }
        ensures ok { OnOk result (self.new ≡ self.old ++ layer ∷ []) }
        ensures err { OnErr result (self.new ≡ self.old) }
    {
        if self.ids.is_full() {
            return Err(Full);
        }
        self.ids.push(layer);
        Ok(())
    }
}

/// The data of a climb: the tree, all layers, which of them are stacked, the oldest first, and what is known of what they
/// grant.
#[derive(Clone, Copy)]
pub(crate) struct Stack<'a> {
    pub(crate) tree: &'a Tree,
    pub(crate) layers: &'a [Layer],
    pub(crate) ids: &'a [LayerId],
    pub(crate) grants: &'a [Grants],
    ghost domain: { IsDomainOf layers.now ids.now } by { Prim.hlevel props },
    ghost few: { length ids.now ≤ MOST_LAYERS },
    ghost rules: { All (AreInTree tree.now) layers.now } by { Prim.hlevel props },
    ghost known: { AreGrants tree.now layers.now grants.now } by { Prim.hlevel props },
}
