//! Where rights pass under two policies: in which regions of objects, and on which ports.

ghost use Rattle.std.specs.Prelude.{◌≡◌, ◌+◌, ℕ, List, [], filter, length, map, IfOk};
ghost use Rattle.std.specs.List.{AllZip, range_with_len};
ghost use Rattle.ll_rights.specs.CodeRights.{fs_right, net_right};
ghost use Rattle.ll_rights.specs.Rights as for_files;
ghost use Rattle.ll_rights.specs.NetRights as for_ports;
ghost use Rattle.ll_policy.specs.Chains.{passes};
ghost use Rattle.ll_policy.specs.Granted.{granting, granting_on_ports};
ghost use Rattle.ll_policy.specs.Policies.{rules_of};
ghost use Rattle.ll_policy.specs.Regions.{region, single, spread, passes_with, numbers_of, TellsPassing, TellsRegions, TellsPorts};

use crate::deciding::passes;
use crate::each::made_of_each;
use crate::granting::{Granting, all_on_objects};
use crate::layer::Layer;
use ll_rights::{Fs, FsRight, NetRight, RightSet};
use std::alloc::{AllocError, Global};

/// Where a right passes under an old policy and a new one: regions of objects, or ports, by their numbers.
#[derive(Drop)]
pub struct Passing {
    /// Where under both.
    pub both: Vec<usize>,
    /// Where under the new one alone.
    pub new: Vec<usize>,
    /// Where under the old one alone.
    pub old: Vec<usize>,
}

/// What each layer grants on the objects, each with those that it is in.
fn all_spread(
    alloc: Global,
    parents: &[usize],
    layers: &[Granting],
) -> Result<Vec<Granting>, AllocError>
    ensures { IfOk result (λ made. made.items ≡ map (spread parents.now) layers.now) }
{
    Ok(made_of_each(alloc, layers, |layer| { layer.spread(alloc, parents) })?)
}

/// What layers say of a right for files, in each region.
pub(crate) fn in_regions(
    alloc: Global,
    parents: &[usize],
    layers: &[Layer],
    right: FsRight,
) -> Result<Vec<Granting>, AllocError>
    ensures { IfOk result (λ made. made.items
        ≡ map (spread parents.now) (map (granting (fs_right right)) (map rules_of layers.now))) }
{
    all_spread(alloc, parents, &all_on_objects(alloc, layers, right)?)
}

/// Whether a number passes by the layers of one policy, and by those of the other too or not, as is asked.
#[tactic(auto, unfolding(crate::specs::Regions::passes_with))]
fn passes_with(too: bool, one: &[Granting], other: &[Granting], number: usize) -> bool
    ensures { result ≡ passes_with too one.now other.now (single number) }
{
    if !passes(&[number], one) {
        return false;
    }
    let passes_there = passes(&[number], other);
    if too { passes_there } else { !passes_there }
}

/// Of so many numbers those of which that is so.
#[tactic(auto, unfolding(crate::specs::Regions::numbers_of))]
fn numbers_with(
    alloc: Global,
    count: usize,
    too: bool,
    one: &[Granting],
    other: &[Granting],
) -> Result<Vec<usize>, AllocError>
    ensures { IfOk result (λ found. found.items
        ≡ numbers_of single count (passes_with too one.now other.now)) }
{
    (0..count)
        .filter(|number| passes_with(too, one, other, *number))
        .collect(alloc)
}

/// Where the right passes, of so many numbers.
fn passing_of(
    alloc: Global,
    count: usize,
    old: &[Granting],
    new: &[Granting],
) -> Result<Passing, AllocError>
    ensures { IfOk result (TellsPassing single count old.now new.now) }
{
    Ok(Passing {
        both: numbers_with(alloc, count, true, old, new)?,
        new: numbers_with(alloc, count, false, new, old)?,
        old: numbers_with(alloc, count, false, old, new)?,
    })
}

/// None at all.
fn nowhere(alloc: Global) -> Passing
    ensures both { result.both.items ≡ [] }
    ensures new { result.new.items ≡ [] }
    ensures old { result.old.items ≡ [] }
{
    Passing {
        both: Vec::new(alloc),
        new: Vec::new(alloc),
        old: Vec::new(alloc),
    }
}

/// In which regions a right for files passes.
fn regions_with(
    alloc: Global,
    parents: &[usize],
    old: &[Layer],
    new: &[Layer],
    right: FsRight,
) -> Result<Passing, AllocError>
    ensures { IfOk result (TellsPassing (region parents.now) (length parents.now + 1)
        (map (granting (fs_right right)) (map rules_of old.now))
        (map (granting (fs_right right)) (map rules_of new.now))) }
{
    let old = in_regions(alloc, parents, old, right)?;
    let new = in_regions(alloc, parents, new, right)?;
    Ok(passing_of(alloc, parents.len() + 1, &old, &new)?)
}

/// The same of a right that is asked about, and nothing of others.
#[tactic(auto, unfolding(crate::specs::Regions::numbers_of))]
fn regions_asked(
    alloc: Global,
    asked: Fs,
    parents: &[usize],
    old: &[Layer],
    new: &[Layer],
    right: FsRight,
) -> Result<Passing, AllocError>
    ensures { IfOk result (TellsRegions asked parents.now
        (map rules_of old.now) (map rules_of new.now) (fs_right right)) }
{
    if asked.has(right) {
        return regions_with(alloc, parents, old, new, right);
    }
    Ok(nowhere(alloc))
}

/// In which regions of objects each right for files passes that is asked about. The root is the first object; the parents
/// say for each other one what it is in, which comes before it.
pub fn passing_on_objects(
    alloc: Global,
    asked: Fs,
    parents: &[usize],
    old: &[Layer],
    new: &[Layer],
) -> Result<Vec<Passing>, AllocError>
    ensures { IfOk result (λ found. AllZip
        (TellsRegions asked parents.now (map rules_of old.now) (map rules_of new.now))
        for_files.all_rights found.items) }
{
    Ok(made_of_each(alloc, FsRight::all(), |right| {
        regions_asked(alloc, asked, parents, old, new, *right)
    })?)
}

/// On which ports a right for ports passes.
fn ports_with(
    alloc: Global,
    count: usize,
    old: &[Layer],
    new: &[Layer],
    right: NetRight,
) -> Result<Passing, AllocError>
    ensures { IfOk result
        (TellsPorts count (map rules_of old.now) (map rules_of new.now) (net_right right)) }
{
    let old = made_of_each(alloc, old, |layer| Granting::on_ports(alloc, layer, right))?;
    let new = made_of_each(alloc, new, |layer| Granting::on_ports(alloc, layer, right))?;
    passing_of(alloc, count, &old, &new)
}

/// On which of so many ports each right for ports passes.
pub fn passing_on_ports(
    alloc: Global,
    count: usize,
    old: &[Layer],
    new: &[Layer],
) -> Result<Vec<Passing>, AllocError>
    ensures { IfOk result (λ found. AllZip
        (TellsPorts count (map rules_of old.now) (map rules_of new.now))
        for_ports.all_rights found.items) }
{
    Ok(made_of_each(alloc, NetRight::all(), |right| {
        ports_with(alloc, count, old, new, *right)
    })?)
}
