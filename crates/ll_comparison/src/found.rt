//! What is found of two policies.

ghost use Rattle.std.specs.Prelude.{◌≡◌, false, IfOk};
ghost use Rattle.ll_policy.specs.Chains.{is_file_in};
ghost use Rattle.ll_comparison.specs.Findings.{AreLost, IsFound};

use crate::comparison::Comparison;
use ll_policy::{
    Compared, Gain, Layer, MovedTo, Passing, Restriction, lost, passing_on_objects,
    passing_on_ports, spare_layers,
};
use std::alloc::{AllocError, Global};

/// Where both policies of a comparison let what pass, and what the new one does and the old one doesn't wherever objects
/// are moved. Layers are those of the old policy, by their indices; there are none for a right that isn't asked about.
#[derive(Drop)]
pub struct Found {
    /// For each right for files, the regions in which it passes, by their objects; none if it isn't asked about.
    pub regions: Vec<Passing>,
    /// For each right for files and each old layer, objects by which new layers let it pass, if there are such.
    pub objects: Vec<Vec<Option<Vec<usize>>>>,
    /// For each right for files and each old layer, the objects by each of which alone, and the root, new layers let it
    /// pass.
    pub single: Vec<Vec<Vec<usize>>>,
    /// For each right for files and each old layer, what gains the right in it and in no new layer.
    pub gains: Vec<Vec<Option<Gain>>>,
    /// For each kind of objects, the moves that pass under one policy alone, by the regions that they come to; none if it
    /// isn't asked about.
    pub moves: Vec<Vec<Option<MovedTo>>>,
    /// For each right for ports, the ports on which it passes.
    pub ports: Vec<Passing>,
    /// The restrictions that are lost.
    pub lost: Lost,
    /// How many layers more a process can stack.
    pub spare_layers: usize,
}

/// For each restriction the first old layer that has it, if no new one does.
#[derive(Clone, Copy, Debug, PartialEq, Eq)]
pub struct Lost {
    pub mounts: Option<usize>,
    pub abstract_unix_socket: Option<usize>,
    pub signal: Option<usize>,
}

/// Which restrictions are lost.
fn all_lost(old: &[Layer], new: &[Layer]) -> Lost
    ensures { AreLost old.now new.now result }
{
    Lost {
        mounts: lost(Restriction::Mounts, old, new),
        abstract_unix_socket: lost(Restriction::AbstractUnixSocket, old, new),
        signal: lost(Restriction::Signal, old, new),
    }
}

/// What both policies of a comparison let pass.
pub fn compare(alloc: Global, comparison: &Comparison) -> Result<Found, AllocError>
    requires { is_file_in comparison.now.files.items 0 ≡ false }
    ensures { IfOk result (IsFound comparison.now) }
{
    let Comparison {
        files,
        parents,
        asked,
        old,
        new,
        ..
    } = comparison;
    let regions = passing_on_objects(alloc, asked.regions, parents, old, new)?;
    let two = Compared { files, old, new };
    let objects = two.more_on_objects(alloc, asked.objects)?;
    let single = two.more_on_single_objects(alloc, asked.single)?;
    let gains = two.more_gains(alloc, asked.gains)?;
    let moves = two.moves_between_regions(alloc, asked.moves, parents)?;
    let ports = passing_on_ports(alloc, comparison.ports, old, new)?;
    Ok(Found {
        regions,
        objects,
        single,
        gains,
        moves,
        ports,
        lost: all_lost(old, new),
        spare_layers: spare_layers(old, new),
    })
}
