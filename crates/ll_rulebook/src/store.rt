//! The rulesets of a trace, and the layers that they were frozen to.

ghost use Rattle.std.specs.Prelude.{◌≡◌, ℕ, ◌<◌, ◌^◌, [], List, length, All, IfOk, OnOk, OnErr, MatchOption, IsOkUnless};
ghost use Rattle.ll_rules.specs.{Layers.RulesOn, KeptLayers.GrantsOnPort};
ghost use Rattle.ll_rules.specs.InTree.{AreInTree, IsOfTree};
ghost use Rattle.ll_rules.specs.RuleFaults.{add_path_fault, add_port_fault};
ghost use Rattle.ll_rulebook.specs.Stores.{with_created, IsFrozenTo, IsPathAdded, AddsPathRule, AddsPortRule, Freezes};

use ll_rights::{Abi, Fs, Net};
use ll_rules::{Layer, LayerId, RuleFault, Ruleset};
use ll_tree::{Place, Tree};
use std::alloc::{AllocError, Global};
use std::marker::Model;

/// A ruleset, and the layer that it was last frozen to, if it has got no rule since.
#[derive(Drop)]
pub(crate) struct Stored {
    pub(crate) ruleset: Ruleset,
    pub(crate) frozen: Option<LayerId>,
}

impl Stored {
    /// Adds a rule for files; the ruleset then is no longer what it was frozen to.
    fn add_path(&mut self, tree: &Tree, spot: Place, files: Fs) -> Result<(), RuleFault>
        requires place { IsOfTree tree.now spot }
        requires within { AreInTree tree.now self.old.ruleset }
        ensures fault { MatchOption (add_path_fault tree.now self.old.ruleset spot files)
            (IsOkUnless result RuleFault.Memory) (λ fault. result ≡ Err fault) }
        ensures ok { OnOk result
            (IsPathAdded tree.now spot files self.old.ruleset self.new.ruleset) }
        ensures frozen { (layers : List (RulesOn ℕ)) → IsFrozenTo layers self.old
            → IsFrozenTo layers self.new }
        ensures err { OnErr result (self.new ≡ self.old) }
    {
        self.ruleset.add_path(tree, spot, files)?;
        self.frozen = None; // that layer lacks the rule for files
        Ok(())
    }

    /// Adds a rule for a port; the ruleset then is no longer what it was frozen to.
    fn add_port(&mut self, abi: Abi, port: u64, network: Net) -> Result<(), RuleFault>
        ensures fault { MatchOption (add_port_fault abi self.old.ruleset port network)
            (IsOkUnless result RuleFault.Memory) (λ fault. result ≡ Err fault) }
        ensures ok { OnOk result (GrantsOnPort self.old.ruleset self.new.ruleset port network) }
        ensures frozen { (layers : List (RulesOn ℕ)) → IsFrozenTo layers self.old
            → IsFrozenTo layers self.new }
        ensures err { OnErr result (self.new ≡ self.old) }
    {
        self.ruleset.add_port(abi, port, network)?;
        self.frozen = None; // that layer lacks the rule for a port
        Ok(())
    }
}

/// All rulesets that were created, and all layers that they were frozen to. A ruleset that gets no rule
/// between two times that it is frozen is frozen to one layer.
#[derive(Drop)]
pub(crate) struct Store {
    rulesets: Vec<Stored>,
    layers: Vec<Layer>,
}

impl Model for Store {
    ghost use Rattle.ll_rulebook.specs.Stores.{Stock, stock_of, AreFrozen};

    ghost Value = { Stock };

    ghost view = { λ store. stock_of store.rulesets.items store.layers.items };

    ghost invariant = { λ store. AreFrozen store.rulesets.items store.layers.items };
}

impl Store {
    /// No ruleset and no layer.
    pub(crate) fn new(alloc: Global) -> Store
        ensures rulesets { result.rulesets ≡ [] }
        ensures layers { result.layers ≡ [] }
    {
        Store {
            rulesets: Vec::new(alloc),
            layers: Vec::new(alloc),
        }
    }

    /// The layers that rulesets were frozen to.
    pub(crate) fn into_layers(self) -> Vec<Layer>
        ensures { result.items ≡ self.layers }
    {
        self.layers
    }

    /// Adds a ruleset at the end, and returns its index.
    pub(crate) fn add(&mut self, created: Ruleset) -> Result<usize, AllocError>
        ensures index { IfOk result (λ index. index ≡ length self.old.rulesets) }
        ensures adds { OnOk result (self.new ≡ with_created self.old created) }
    {
        let index = self.rulesets.len();
        self.rulesets.push(Stored {
            ruleset: created,
            frozen: None,
        })?;
        Ok(index)
    }

    /// Adds a rule for files to the ruleset at an index.
    pub(crate) fn add_path(
        &mut self,
        index: usize,
        tree: &Tree,
        spot: Place,
        files: Fs,
    ) -> Result<(), RuleFault>
        requires place { IsOfTree tree.now spot }
        requires there { index < length self.old.rulesets }
        requires within { All (AreInTree tree.now) self.old.rulesets }
        ensures { AddsPathRule tree.now spot files result index self.old self.new }
    {
        self.rulesets[index].add_path(tree, spot, files)
    }

    /// Adds a rule for a port to the ruleset at an index.
    pub(crate) fn add_port(
        &mut self,
        index: usize,
        abi: Abi,
        port: u64,
        network: Net,
    ) -> Result<(), RuleFault>
        requires { index < length self.old.rulesets }
        ensures { AddsPortRule abi port network result index self.old self.new }
    {
        self.rulesets[index].add_port(abi, port, network)
    }

    /// The layer that the ruleset at an index is now.
    pub(crate) fn freeze(&mut self, alloc: Global, index: usize) -> Result<LayerId, AllocError>
        requires there { index < length self.old.rulesets }
        requires room { length self.old.layers < 2 ^ 32 }
        ensures { IfOk result (Freezes self.old self.new index) }
    {
        let stored = &mut self.rulesets[index];
        if let Some(id) = stored.frozen {
            return Ok(id);
        }
        let layer = stored.ruleset.freeze(alloc)?;
        self.layers.reserve(1)?;
        let id = LayerId(self.layers.len() as u32);
        self.layers.push_reserved(layer);
        stored.frozen = Some(id);
        Ok(id)
    }
}
