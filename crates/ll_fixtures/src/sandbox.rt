//! A process that restricts itself, over a tree.

ghost use Rattle.std.specs.Prelude.{◌≡◌, All};
ghost use Rattle.ll_tree.specs.Trees.{IsNode};
ghost use Rattle.ll_rules.specs.InTree.{AreInTree};
ghost use Rattle.ll_rules.specs.KeptLayers.{IsDomainOf};

use ll_rights::{Abi, Fs, Net};
use ll_rules::{Domain, Errno, Layer, LayerId, RuleFault, Ruleset};
use ll_tree::{NodeId, Place, Tree};
use std::alloc::Global;

/// The layers that a process has stacked, and the ruleset that is to be the next, with rules on objects of a tree.
#[derive(Drop)]
pub struct Sandbox<'t> {
    /// The tree.
    pub tree: &'t Tree,
    /// The layers, the oldest first.
    pub layers: Vec<Layer>,
    /// The domain that stacks them.
    pub domain: Domain,
    rules: Ruleset,
    pub ghost layers_in_tree: { All (AreInTree tree.now) layers.items },
    pub ghost stacked: { IsDomainOf layers.items domain },
    ghost rules_in_tree: { AreInTree tree.now rules },
}

impl<'t> Sandbox<'t> {
    /// No layer, and a ruleset that handles nothing.
    #[tactic(auto, using(ll_rules::proofs::Adding::no_rules_in_tree))]
    pub fn new(alloc: Global, tree: &'t Tree) -> Sandbox<'t>
        ensures { result.tree.now ≡ tree.now }
    {
        Sandbox {
            tree,
            layers: Vec::new(alloc),
            domain: Domain::new(),
            rules: Ruleset::empty(alloc),
        }
    }

    /// Creates the ruleset that is to be the next layer (landlock_create_ruleset(2)).
    #[tactic(auto, using(ll_rules::proofs::Adding::no_rules_in_tree))]
    pub fn create(&mut self, alloc: Global, files: Fs, network: Net) -> Result<(), Errno> {
        self.rules = Ruleset::create(alloc, Abi::V5, files, network)?;
        Ok(())
    }

    /// Grants rights on an object and on all under it (landlock_add_rule(2)).
    pub fn grant(&mut self, node: NodeId, files: Fs) -> Result<(), RuleFault>
        requires { IsNode self.old.tree.now node }
    {
        self.rules.add_path(self.tree, Place::Node(node), files)
    }

    /// Stacks the ruleset as a layer (landlock_restrict_self(2)).
    #[tactic(auto, using(crate::proofs::AddingLayers::layer_pushed, crate::proofs::AddingLayers::still_domain, crate::proofs::AddingLayers::domain_pushed))]
    pub fn restrict(&mut self, alloc: Global) -> Result<(), RuleFault> {
        let Ok(layer) = self.rules.freeze(alloc) else {
            return Err(RuleFault::Memory);
        };
        let Ok(number) = u32::try_from(self.layers.len()) else {
            return Err(RuleFault::Errno(Errno::TooBig));
        };
        let Ok(()) = self.layers.push(layer) else {
            return Err(RuleFault::Memory);
        };
        let Ok(()) = self.domain.push(LayerId(number)) else {
            return Err(RuleFault::Errno(Errno::TooBig));
        };
        Ok(())
    }
}
