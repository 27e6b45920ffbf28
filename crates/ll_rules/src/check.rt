//! The checks: which layers of a domain refuse.

ghost use Rattle.std.specs.Prelude.{◌≡◌, ◌+◌, ◌*◌, ◌<◌, ◌≤◌, length, All};
ghost use Rattle.ll_tree.specs.Trees.{IsNode, path_at};
ghost use Rattle.ll_tree.specs.TreeFacts.{depth_at};
ghost use Rattle.ll_rules.specs.InTree.{AreInTree, all_in_tree};
ghost use Rattle.ll_rules.specs.KeptLayers.{layer_at, domain_of, IsDomainOf};
ghost use Rattle.ll_rules.specs.Checks.{refusing, refusing_port, refusing_mount};

use crate::domain::Stack;
use crate::lanes::filled;
use crate::{Domain, KnownLayers, Layer, LayerId, LayerSet};
use ll_rights::{Fs, Net};
use ll_tree::{NodeId, Tree};
use std::simd::prelude::*;

/// The layer at an index of a slice.
pub(crate) fn layer_of(layers: &[Layer], id: LayerId) -> &Layer
    requires { id.0 < length layers.now }
    ensures { result.now ≡ layer_at layers.now id }
{
    &layers[id.0 as usize]
}

/// The layers of a domain that refuse a wanted right on an object: each layer that handles a wanted
/// right and grants it neither on the object nor on a directory above it (landlock(7),
/// "Landlock rules").
///
/// ```
/// let mut rules = Ruleset::create(alloc, Abi::V4, Fs::READ_FILE, Net::NONE)?;
/// rules.add_path(tree, tree.resolve("/etc"), Fs::READ_FILE)?;
/// let layer = rules.freeze(alloc)?;
/// let mut domain = Domain::new();
/// domain.push(LayerId(0))?;
/// Ok(check_path(tree, slice::from_ref(&layer), &domain, node, Fs::READ_FILE))
/// ```
pub fn check_path(
    tree: &Tree,
    layers: &[Layer],
    domain: &Domain,
    node: NodeId,
    wanted: Fs,
) -> LayerSet
    requires domain { IsDomainOf layers.now domain.now }
    requires rules { All (AreInTree tree.now) layers.now }
    requires node { IsNode tree.now node }
    ensures { result ≡ refusing (all_in_tree tree.now (domain_of layers.now domain.now))
        (path_at tree.now node) wanted }
{
    check_path_counted(tree, layers, domain, node, wanted).0
}

/// What `check_path` answers, and the number of look-ups that it took: questions to one layer for its rule
/// on one node. For each node from the object to the root, there are at most as many as there are layers.
pub fn check_path_counted(
    tree: &Tree,
    layers: &[Layer],
    domain: &Domain,
    node: NodeId,
    wanted: Fs,
) -> (LayerSet, u64)
    requires domain { IsDomainOf layers.now domain.now }
    requires rules { All (AreInTree tree.now) layers.now }
    requires node { IsNode tree.now node }
    ensures answer { result.0 ≡ refusing (all_in_tree tree.now (domain_of layers.now domain.now))
        (path_at tree.now node) wanted }
    ensures look_ups { result.1 ≤ length domain.now * (depth_at tree.now node + 1) }
{
    let known = KnownLayers {
        tree,
        layers,
        grants: &[],
    };
    check_path_by(&known, domain, node, wanted)
}

/// The same, by what is known of what the layers grant.
pub fn check_path_by(
    known: &KnownLayers<'_>,
    domain: &Domain,
    node: NodeId,
    wanted: Fs,
) -> (LayerSet, u64)
    requires domain { IsDomainOf known.now.layers.now domain.now }
    requires node { IsNode known.now.tree.now node }
    ensures answer { result.0
        ≡ refusing (all_in_tree known.now.tree.now (domain_of known.now.layers.now domain.now))
        (path_at known.now.tree.now node) wanted }
    ensures look_ups { result.1
        ≤ length domain.now * (depth_at known.now.tree.now node + 1) }
{
    let stack = Stack {
        tree: known.tree,
        layers: known.layers,
        ids: domain.layers(),
        grants: known.grants,
    };
    let mut lacking = stack.asked_in(wanted);
    let look_ups = stack.climb(node, &mut lacking);
    (filled(u32x16::from_array(lacking)), look_ups)
}

/// The layers of a domain that refuse a wanted right on a TCP port: each layer that handles a wanted
/// right and has no rule on exactly this port that grants it (the kernel's userspace document on
/// Landlock, "Network flags").
pub fn check_port(layers: &[Layer], domain: &Domain, port: u16, wanted: Net) -> LayerSet
    requires { IsDomainOf layers.now domain.now }
    ensures { result ≡ refusing_port (domain_of layers.now domain.now) port wanted }
{
    let ids = domain.layers();
    let mut refusing = LayerSet::new();
    for (index, id) in ids.iter().enumerate() {
        let closed = layer_of(layers, *id).refuses_on_port(port, wanted);
        refusing = refusing.noted(index as u32 + 1, closed);
    }
    refusing
}

/// The layers of a domain that refuse a change of the mounts: each layer that handles a right for files
/// (the kernel's userspace document on Landlock, "Current limitations").
pub fn check_mount(layers: &[Layer], domain: &Domain) -> LayerSet
    requires { IsDomainOf layers.now domain.now }
    ensures { result ≡ refusing_mount (domain_of layers.now domain.now) }
{
    let ids = domain.layers();
    let mut refusing = LayerSet::new();
    for (index, id) in ids.iter().enumerate() {
        let handles = layer_of(layers, *id).handles_files();
        refusing = refusing.noted(index as u32 + 1, handles);
    }
    refusing
}
