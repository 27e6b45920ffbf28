//! What a version of the interface leaves of layers.

ghost use Rattle.std.specs.Prelude.{◌≡◌, IfOk, map};
ghost use Rattle.ll_fitting.specs.Written.{written};
ghost use Rattle.ll_fitting.specs.Fitting.{fitted, fitted_layer, fitted_path_rules, fitted_port_rules, handled_at, shown};

use crate::rights::{listed, rights_on, rights_on_port};
use crate::told::all_told;
use crate::written::{Access, Layer, Parent};
use ll_rights::{Abi, Fs, Net, RightSet};
use std::alloc::{AllocError, Global};

/// A rule with the rights that are asked for on its parent. The rule is named by its index in its layer.
#[derive(Clone, Copy, Debug, PartialEq, Eq)]
pub struct FittedPathRule {
    pub rule: usize,
    pub parent: Parent,
    pub rights: Fs,
}

/// A rule with the rights that are asked for on its port.
#[derive(Clone, Copy, Debug, PartialEq, Eq)]
pub struct FittedPortRule {
    pub rule: usize,
    pub port: u64,
    pub rights: Net,
}

/// A layer with only rights that the version knows, and rules that grant some of these. It is named by its index in
/// the policy.
#[derive(Drop)]
pub struct FittedLayer {
    pub layer: usize,
    pub files: Fs,
    pub network: Net,
    pub path_rules: Vec<FittedPathRule>,
    pub port_rules: Vec<FittedPortRule>,
}

/// The rights that a layer which handles a list handles at a version.
#[tactic(auto, unfolding(crate::specs::Fitting::handled_at))]
fn handled_at<S: RightSet>(handled: Access<S>, abi: Abi) -> S
    ensures { result ≡ handled_at S.family abi handled }
{
    listed(handled).supported(abi)
}

/// The rules for files of a layer that are left at a version.
#[tactic(auto, unfolding(crate::specs::Fitting::fitted_path_rules, crate::specs::Fitting::fitted_path_rule))]
fn fit_path_rules(alloc: Global, layer: &Layer, abi: Abi) -> Result<Vec<FittedPathRule>, AllocError>
    ensures { IfOk result (λ left. left.items ≡ fitted_path_rules abi (written layer.now)) }
{
    all_told(alloc, &layer.path_rules, |index, rule| {
        let rights = rights_on(layer, abi, *rule);
        (!rights.is_empty()).then_some(FittedPathRule {
            rule: index,
            parent: rule.parent,
            rights,
        })
    })
}

/// The rules for ports of a layer that are left at a version.
#[tactic(auto, unfolding(crate::specs::Fitting::fitted_port_rules, crate::specs::Fitting::fitted_port_rule))]
fn fit_port_rules(alloc: Global, layer: &Layer, abi: Abi) -> Result<Vec<FittedPortRule>, AllocError>
    ensures { IfOk result (λ left. left.items ≡ fitted_port_rules abi (written layer.now)) }
{
    all_told(alloc, &layer.port_rules, |index, rule| {
        let rights = rights_on_port(layer, abi, *rule);
        (!rights.is_empty()).then_some(FittedPortRule {
            rule: index,
            port: rule.port,
            rights,
        })
    })
}

/// A layer as it is at a version, where it has an index in its policy.
fn fit_layer(
    alloc: Global,
    index: usize,
    layer: &Layer,
    abi: Abi,
) -> Result<FittedLayer, AllocError>
    ensures { IfOk result (λ left. shown left ≡ fitted_layer abi index (written layer.now)) }
{
    Ok(FittedLayer {
        layer: index,
        files: handled_at(layer.handled_files, abi),
        network: handled_at(layer.handled_network, abi),
        path_rules: fit_path_rules(alloc, layer, abi)?,
        port_rules: fit_port_rules(alloc, layer, abi)?,
    })
}

/// What a version leaves of layers, the oldest first: those that still handle a right.
#[tactic(auto, unfolding(crate::specs::Fitting::fitted, crate::specs::Fitting::fitted_if_any))]
pub(crate) fn fit_layers(
    alloc: Global,
    layers: &[Layer],
    abi: Abi,
) -> Result<Vec<FittedLayer>, AllocError>
    ensures { IfOk result (λ left. map shown left.items ≡ fitted abi (map written layers.now)) }
{
    let mut left = Vec::new(alloc);
    for (index, layer) in layers.iter().enumerate() {
        let files = handled_at(layer.handled_files, abi);
        let network = handled_at(layer.handled_network, abi);
        if !files.is_empty() || !network.is_empty() {
            left.push(fit_layer(alloc, index, layer, abi)?)?;
        }
    }
    Ok(left)
}
