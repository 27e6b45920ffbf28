//! Plain layers, which of some layers refuse what is wanted on a path, and the domain that stacks them.

ghost use Rattle.std.specs.Prelude.{◌≡◌, [], IfOk};
ghost use Rattle.ll_tree.specs.Trees.{IsNode};
ghost use Rattle.ll_rules.specs.KeptLayers.{IsDomainOf};

use bitflags::Flags;
use ll_rights::{Fs, Kind};
use ll_rules::{Domain, Full, Layer, LayerId, MOST_LAYERS};
use ll_tree::{NodeId, Tree};
use std::alloc::{AllocError, Global};
use std::collections::HashMap;

/// Which of at most sixteen layers refuse, the oldest first.
pub type Refusing = [bool; MOST_LAYERS];

/// A layer in a form that is asked by itself.
pub trait Refuses {
    /// Whether the layer refuses something of what is wanted on a node.
    fn refuses(&self, tree: &Tree, node: NodeId, wanted: Fs) -> bool
        requires { IsNode tree.now node };
}

/// The rights for files that a layer handles, and its rules.
#[derive(Drop)]
pub struct PlainLayer {
    files: Fs,
    on_nodes: HashMap<u32, Fs>,
}

impl PlainLayer {
    /// A layer that handles some rights, without a rule.
    pub fn new(alloc: Global, files: Fs) -> PlainLayer
        ensures handles { result.files ≡ files }
        ensures empty { result.on_nodes.entries ≡ [] }
    {
        PlainLayer {
            files,
            on_nodes: HashMap::new(alloc),
        }
    }

    /// Adds a rule that grants rights on an object and on all under it.
    pub fn grant(&mut self, node: NodeId, files: Fs) -> Result<(), AllocError> {
        let granted = self.rule_on(node).union(files);
        self.on_nodes.insert(node.index(), granted)?;
        Ok(())
    }

    fn rule_on(&self, node: NodeId) -> Fs {
        let number = node.index();
        self.on_nodes.get(&number).copied().unwrap_or(Fs::NONE)
    }

    /// The rights that the rules on a node and on the directories above it grant.
    #[tactic(auto, using(ll_rules::proofs::Climbs::nodes_above))]
    pub(crate) fn granted(&self, tree: &Tree, node: NodeId) -> Fs
        requires { IsNode tree.now node }
    {
        let mut granted = Fs::NONE;
        let mut cursor = Some(node);
        while let Some(here) = cursor {
            granted = granted.union(self.rule_on(here));
            cursor = tree.parent(here);
        }
        granted
    }

    /// The rights that the layer handles, moving files between directories among them if there are any.
    fn handled(&self) -> Fs {
        if self.files.is_empty() {
            return self.files;
        }
        self.files.union(Fs::REFER)
    }

    /// Whether an object gains a right by going to a directory.
    pub(crate) fn gains(&self, tree: &Tree, object: NodeId, directory: NodeId) -> bool
        requires object { IsNode tree.now object }
        requires directory { IsNode tree.now directory }
    {
        let counted = match tree.kind(object) {
            Kind::Dir => self.handled(),
            _ => self.handled().intersection(Fs::FILE),
        };
        let granted_there = self.granted(tree, directory);
        let granted_here = self.granted(tree, object);
        !granted_there
            .intersection(counted)
            .difference(granted_here)
            .is_empty()
    }
}

impl Refuses for PlainLayer {
    fn refuses(&self, tree: &Tree, node: NodeId, wanted: Fs) -> bool {
        let granted = self.granted(tree, node);
        !wanted
            .intersection(self.handled())
            .difference(granted)
            .is_empty()
    }
}

/// Which of the first sixteen layers refuse something of what is wanted on a node.
pub fn refusing<L: Refuses>(tree: &Tree, layers: &[L], node: NodeId, wanted: Fs) -> Refusing
    requires { IsNode tree.now node }
{
    let mut refusing = [false; MOST_LAYERS];
    for (mark, layer) in refusing.iter_mut().zip(layers) {
        *mark = layer.refuses(tree, node, wanted);
    }
    refusing
}

/// The domain that stacks the first sixteen layers, in their order.
pub fn stacked(layers: &[Layer]) -> Result<Domain, Full>
    ensures { IfOk result (IsDomainOf layers.now) }
{
    let mut domain = Domain::new();
    for number in 0..MOST_LAYERS as u32 {
        if (number as usize) < layers.len() {
            domain.push(LayerId(number))?;
        }
    }
    Ok(domain)
}
