//! A climb for each layer by itself, with what makes the checks by lanes quick: a filter in front of the rules, and
//! an end where nothing is lacking.

use bitflags::Flags;
use ll_fixtures::Refuses;
use ll_rights::Fs;
use ll_tree::{NodeId, Tree};
use std::alloc::{AllocError, Global};
use std::collections::HashMap;

/// The rights for files that a layer handles, its rules, and a bit for each node that has one; nodes whose numbers
/// are 4,096 apart share a bit.
#[derive(Drop)]
pub(crate) struct FilteredLayer {
    files: Fs,
    marks: [u64; 64],
    on_nodes: HashMap<u32, Fs>,
}

impl FilteredLayer {
    /// A layer that handles some rights, without a rule.
    pub(crate) fn new(alloc: Global, files: Fs) -> FilteredLayer {
        FilteredLayer {
            files,
            marks: [0; 64],
            on_nodes: HashMap::new(alloc),
        }
    }

    /// Adds a rule that grants rights on an object and on all under it.
    pub(crate) fn grant(&mut self, node: NodeId, files: Fs) -> Result<(), AllocError> {
        let granted = self.rule_on(node).union(files);
        let number = node.index();
        self.on_nodes.insert(number, granted)?;
        self.marks[(number / 64 % 64) as usize] |= 1 << (number % 64);
        Ok(())
    }

    fn is_marked(&self, node: NodeId) -> bool {
        let number = node.index();
        self.marks[(number / 64 % 64) as usize] >> (number % 64) & 1 == 1
    }

    fn rule_on(&self, node: NodeId) -> Fs {
        if !self.is_marked(node) {
            return Fs::NONE;
        }
        self.on_nodes
            .get(&node.index())
            .copied()
            .unwrap_or(Fs::NONE)
    }
}

impl Refuses for FilteredLayer {
    #[tactic(auto, using(ll_rules::proofs::Climbs::nodes_above))]
    fn refuses(&self, tree: &Tree, node: NodeId, wanted: Fs) -> bool {
        let mut lacking = wanted.intersection(self.files);
        let mut cursor = Some(node);
        while let Some(here) = cursor {
            if lacking.is_empty() {
                return false;
            }
            lacking = lacking.difference(self.rule_on(here));
            cursor = tree.parent(here);
        }
        !lacking.is_empty()
    }
}
