//! What a layer says of one right.

ghost use Rattle.std.specs.Prelude.{◌≡◌, ◌<◌, All, IfOk, map};
ghost use Rattle.ll_policy.specs.Chains.{is_among, some_among, places_of};
ghost use Rattle.ll_rights.specs.CodeRights.{fs_right, net_right};
ghost use Rattle.ll_rules.specs.Layers.{handles};
ghost use Rattle.ll_policy.specs.Granted.{granting, granting_on_ports};
ghost use Rattle.ll_policy.specs.Policies.{rules_of};
ghost use Rattle.ll_policy.specs.Regions.{chains_of, spread};

use crate::each::made_of_each;
use crate::layer::Layer;
use ll_rights::{FsRight, NetRight, RightSet};
use std::alloc::{AllocError, Global};
use std::marker::Model;

/// What a layer says of one right: whether it handles it, and on which objects a rule grants it.
#[derive(Drop)]
pub struct Granting {
    handles: bool,
    on: Vec<bool>,
}

/// Whether a layer handles a right for files.
fn handles_of(layer: &Layer, right: FsRight) -> bool
    ensures { result ≡ handles (rules_of layer.now) (fs_right right) }
{
    match right {
        FsRight::Refer => !layer.files.is_empty(),
        _ => layer.files.has(right),
    }
}

/// For each of some sets, whether it has a right.
fn marks<S: RightSet>(alloc: Global, sets: &[S], right: S::Right) -> Result<Vec<bool>, AllocError>
    ensures { IfOk result (λ on.
        on.items ≡ map (λ set. S.family.has set (S.named right)) sets.now) }
{
    sets.iter().map(|set| set.has(right)).collect(alloc)
}

impl Model for Granting {
    ghost use Rattle.ll_policy.specs.Chains as chains;
    ghost use Rattle.ll_policy.specs.Chains.{places_of};

    ghost Value = { chains.Granting };

    ghost view = { λ a. record { handles = a.handles; grants = places_of a.on.items } };
}

impl Granting {
    /// What a layer says of a right for files.
    pub fn on_objects(alloc: Global, layer: &Layer, right: FsRight) -> Result<Granting, AllocError>
        ensures { IfOk result (λ made. made ≡ granting (fs_right right) (rules_of layer.now)) }
    {
        let handles = handles_of(layer, right);
        let on = marks(alloc, &layer.on_objects, right)?;
        Ok(Granting { handles, on })
    }

    /// What a layer says of a right for ports.
    pub fn on_ports(alloc: Global, layer: &Layer, right: NetRight) -> Result<Granting, AllocError>
        ensures { IfOk result (λ made.
            made ≡ granting_on_ports (net_right right) (rules_of layer.now)) }
    {
        let handles = layer.network.has(right);
        let on = marks(alloc, &layer.on_ports, right)?;
        Ok(Granting { handles, on })
    }

    /// Whether the layer handles the right.
    pub(crate) fn handles(&self) -> bool
        ensures { result ≡ self.now.handles }
    {
        self.handles
    }

    /// For each object by its number, whether a rule grants the right on it.
    pub(crate) fn on(&self) -> &[bool]
        ensures { places_of result.now ≡ self.now.grants }
    {
        &self.on
    }

    /// Whether a rule grants the right on an object.
    #[tactic(auto, using(crate::proofs::Marks::among))]
    pub(crate) fn grants_on(&self, object: usize) -> bool
        ensures { result ≡ is_among object self.now.grants }
    {
        self.on.get(object).copied().unwrap_or(false)
    }

    /// A number above those of all objects that the layer grants on.
    #[tactic(auto, using(crate::proofs::Marks::places_below))]
    pub(crate) fn bound(&self) -> usize
        ensures { All (λ object. object < result) self.now.grants }
    {
        self.on.len()
    }

    /// For each object, whether the layer grants the right on it or on one that it is in.
    fn reached(&self, alloc: Global, parents: &[usize]) -> Result<Vec<bool>, AllocError>
        ensures { IfOk result (λ on. on.items
            ≡ map (λ chain. some_among chain self.now.grants) (chains_of parents.now)) }
    {
        let mut on = Vec::new(alloc);
        on.push(self.grants_on(0))?;
        for index in 0..parents.len() {
            let own = self.grants_on(on.len());
            let above = on.get(parents[index]).copied().unwrap_or(false);
            on.push(own | above)?;
        }
        Ok(on)
    }

    /// The layer with what it grants on each object or on one that this is in.
    #[tactic(auto, unfolding(crate::specs::Regions::spread))]
    pub(crate) fn spread(&self, alloc: Global, parents: &[usize]) -> Result<Granting, AllocError>
        ensures { IfOk result (λ made. made ≡ spread parents.now self.now) }
    {
        let on = self.reached(alloc, parents)?;
        Ok(Granting {
            handles: self.handles,
            on,
        })
    }

    /// The same again.
    pub(crate) fn copied(&self) -> Result<Granting, AllocError>
        ensures { IfOk result (λ same. same ≡ self.now) }
    {
        Ok(Granting {
            handles: self.handles,
            on: self.on.clone()?,
        })
    }
}

/// What each layer says of a right for files.
pub fn all_on_objects(
    alloc: Global,
    layers: &[Layer],
    right: FsRight,
) -> Result<Vec<Granting>, AllocError>
    ensures { IfOk result (λ made.
        made.items ≡ map (granting (fs_right right)) (map rules_of layers.now)) }
{
    Ok(made_of_each(alloc, layers, |layer| {
        Granting::on_objects(alloc, layer, right)
    })?)
}
