//! Policies: layers of which the kernel can make what they say.

ghost use Rattle.std.specs.Prelude.{◌≡◌, false, map, Some, None, IfOk, IfErr};
ghost use Rattle.ll_rights.specs.Families.{for_files, for_network};
ghost use Rattle.ll_fitting.specs.Written.{written};
ghost use Rattle.ll_fitting.specs.Fitting.{fitted, shown};
ghost use Rattle.ll_fitting.specs.Misfits as misfits;

use crate::fitting::{FittedLayer, fit_layers};
use crate::rights::listed;
use crate::told::first_told;
use crate::written::{Access, Layer, PortRule, Scopes};
use ll_rights::{Abi, LARGEST_PORT, RightSet};
use std::alloc::{AllocError, Global};
use std::marker::Model;

/// The most layers of a process.
pub const MOST_LAYERS: usize = 16;

/// What is wrong with a rule.
#[derive(Clone, Copy, Debug, PartialEq, Eq)]
pub enum RuleMisfit {
    /// It names a right outright that its layer does not handle: the kernel would refuse the whole rule.
    NotHandled,
    /// The layer handles none of its rights.
    GrantsNothing,
    /// The number is no TCP port.
    NoPort,
}

/// What is wrong with layers. Layers and rules are named by their indices.
#[derive(Clone, Copy, Debug, PartialEq, Eq)]
pub enum Misfit {
    /// There is no layer.
    NoLayer,
    /// There are more layers than a process can have.
    TooManyLayers,
    /// A layer handles a right that no version knows.
    UnknownRight {
        layer: usize,
    },
    /// A layer handles no right and has no scope.
    HandlesNothing {
        layer: usize,
    },
    /// A rule for files.
    PathRule {
        layer: usize,
        rule: usize,
        misfit: RuleMisfit,
    },
    /// A rule for a port.
    PortRule {
        layer: usize,
        rule: usize,
        misfit: RuleMisfit,
    },
}

/// Whether all rights that a layer handles have a name.
fn knows_all(layer: &Layer) -> bool
    ensures { result ≡ misfits.knows_all (written layer.now) }
{
    !listed(layer.handled_files).has_other() && !listed(layer.handled_network).has_other()
}

/// Whether a layer has a scope.
fn has_scope(scopes: Scopes) -> bool
    ensures { result ≡ misfits.has_scope scopes }
{
    scopes.abstract_unix_socket || scopes.signal
}

/// Whether a layer handles no right and has no scope.
fn handles_nothing(layer: &Layer) -> bool
    ensures { result ≡ misfits.handles_nothing (written layer.now) }
{
    listed(layer.handled_files).is_empty()
        && listed(layer.handled_network).is_empty()
        && !has_scope(layer.scopes)
}

/// What is wrong with the rights that a rule lists in a layer that handles others.
#[tactic(auto, unfolding(crate::specs::Misfits::rule_misfit))]
fn rule_misfit<S: RightSet>(handled: Access<S>, allowed: Access<S>) -> Option<RuleMisfit>
    requires known { misfits.has_other S.family handled ≡ false }
    ensures { result ≡ misfits.rule_misfit S.family handled allowed }
{
    let handled = listed(handled);
    if !allowed.named.is_within(handled) {
        return Some(RuleMisfit::NotHandled);
    }
    if listed(allowed).common(handled).is_empty() {
        return Some(RuleMisfit::GrantsNothing);
    }
    None
}

/// What is wrong with a rule for a port.
#[tactic(auto, unfolding(crate::specs::Misfits::port_rule_misfit))]
fn port_rule_misfit(layer: &Layer, rule: PortRule) -> Option<RuleMisfit>
    requires known { misfits.has_other for_network layer.now.handled_network ≡ false }
    ensures { result ≡ misfits.port_rule_misfit (written layer.now) rule }
{
    let misfit = rule_misfit(layer.handled_network, rule.allowed);
    if misfit.is_none() && rule.port > LARGEST_PORT {
        return Some(RuleMisfit::NoPort);
    }
    misfit
}

/// The first rule for files of a layer that is wrong.
fn misfit_on_paths(index: usize, layer: &Layer) -> Option<Misfit>
    requires known { misfits.has_other for_files layer.now.handled_files ≡ false }
    ensures { result ≡ misfits.misfit_on_paths index (written layer.now) }
{
    first_told(&layer.path_rules, |rule_index, rule| {
        let misfit = rule_misfit(layer.handled_files, rule.allowed)?;
        Some(Misfit::PathRule {
            layer: index,
            rule: rule_index,
            misfit,
        })
    })
}

/// The first rule for a port of a layer that is wrong.
fn misfit_on_ports(index: usize, layer: &Layer) -> Option<Misfit>
    requires known { misfits.has_other for_network layer.now.handled_network ≡ false }
    ensures { result ≡ misfits.misfit_on_ports index (written layer.now) }
{
    first_told(&layer.port_rules, |rule_index, rule| {
        let misfit = port_rule_misfit(layer, *rule)?;
        Some(Misfit::PortRule {
            layer: index,
            rule: rule_index,
            misfit,
        })
    })
}

/// What is wrong with a layer.
#[tactic(auto, unfolding(crate::specs::Misfits::layer_misfit))]
fn layer_misfit(index: usize, layer: &Layer) -> Option<Misfit>
    ensures { result ≡ misfits.layer_misfit (index, written layer.now) }
{
    if !knows_all(layer) {
        return Some(Misfit::UnknownRight { layer: index });
    }
    if handles_nothing(layer) {
        return Some(Misfit::HandlesNothing { layer: index });
    }
    let on_paths = misfit_on_paths(index, layer);
    if on_paths.is_some() {
        return on_paths;
    }
    misfit_on_ports(index, layer)
}

/// The first layer that is wrong.
fn misfit_in(layers: &[Layer]) -> Option<Misfit>
    ensures { result ≡ misfits.misfit_in (map written layers.now) }
{
    first_told(layers, |index, layer| layer_misfit(index, layer))
}

/// What is wrong with layers, if something is.
#[tactic(auto, unfolding(crate::specs::Misfits::misfit))]
fn misfit_of(layers: &[Layer]) -> Option<Misfit>
    ensures { result ≡ misfits.misfit (map written layers.now) }
{
    if layers.is_empty() {
        return Some(Misfit::NoLayer);
    }
    if layers.len() > MOST_LAYERS {
        return Some(Misfit::TooManyLayers);
    }
    misfit_in(layers)
}

/// A policy: 1 to 16 layers. Each handles rights that have a name, or has a scope, and each rule grants a right that
/// its layer handles and names no other.
#[derive(Drop)]
pub struct Policy {
    layers: Vec<Layer>,
}

impl Model for Policy {
    ghost use Rattle.std.specs.Prelude.{List, map};
    ghost use Rattle.ll_fitting.specs.Written as policies;

    ghost Value = { List policies.Layer };

    ghost view = { λ policy. map policies.written policy.layers.items };

    ghost use Rattle.std.specs.Prelude.{◌≡◌, None};
    ghost use Rattle.ll_fitting.specs.Misfits.{misfit};

    ghost invariant = { λ policy. misfit (map policies.written policy.layers.items) ≡ None };
}

impl Policy {
    /// The policy of layers, or the first thing that is wrong with them.
    pub fn new(layers: Vec<Layer>) -> Result<Policy, Misfit>
        ensures policy { IfOk result (λ policy. policy ≡ map written layers.items) }
        ensures misfit { IfErr result (λ wrong.
            misfits.misfit (map written layers.items) ≡ Some wrong) }
    {
        if let Some(misfit) = misfit_of(&layers) {
            return Err(misfit);
        }
        Ok(Policy { layers })
    }

    /// What a version of the interface leaves of the policy, the oldest layer first.
    pub fn fit(&self, alloc: Global, abi: Abi) -> Result<Vec<FittedLayer>, AllocError>
        ensures fitted { IfOk result (λ left. map shown left.items ≡ fitted abi self.now) }
        ensures fits { misfits.misfit self.now ≡ None }
    {
        fit_layers(alloc, &self.layers, abi)
    }
}
