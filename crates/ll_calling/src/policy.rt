//! A policy, as a line says it.

ghost use Rattle.std.specs.Prelude.{◌≡◌, IfOk, map};
ghost use Rattle.serde_json.specs.View.{view};
ghost use Rattle.ll_lines.specs.Readers.{Gives};
ghost use Rattle.ll_fitting.specs.Written.{written};
ghost use Rattle.ll_calling.specs.PolicyLines as lines;

use crate::access::{access_of, scopes_of};
use crate::rules::{RuleRead, port_rule_of, rule_of};
use ll_fitting::{Access, Layer, PathRule, Policy, PortRule, Scopes};
use ll_lines::Cause;
use ll_rights::{Fs, Net};
use ll_values::{list_of, value_of};
use serde_json::Value;
use std::alloc::{AllocError, Global};
use std::marker::Model;

/// A layer with the paths of its rules.
#[derive(Drop)]
pub struct LayerRead {
    pub handled_files: Access<Fs>,
    pub handled_network: Access<Net>,
    pub rules: Vec<RuleRead>,
    pub port_rules: Vec<PortRule>,
    pub scopes: Scopes,
}

impl Model for LayerRead {
    ghost use Rattle.ll_calling.specs.PolicyLines.{LayerSeen};

    ghost Value = { LayerSeen };

    ghost view = { λ read. record {
      handled_files = read.handled_files;
      handled_network = read.handled_network;
      rules = read.rules.items;
      port_rules = read.port_rules.items;
      scopes = read.scopes;
    } };
}

/// A policy, and its layers with the paths of their rules.
#[derive(Drop)]
pub struct PolicyRead {
    pub layers: Vec<LayerRead>,
    pub policy: Policy,
}

/// The layer that a value describes.
#[tactic(auto, unfolding(crate::specs::PolicyLines::layer_in))]
fn layer_of(alloc: Global, value: &Value) -> Result<LayerRead, Cause>
    ensures { Gives (λ layer. layer) result (lines.layer_in (view value.now)) }
{
    let handled_files = access_of(value, "handled_access_fs")?;
    let handled_network = access_of(value, "handled_access_net")?;
    let rules = list_of(alloc, value, "path_beneath", |_, rule| rule_of(alloc, rule))?;
    let port_rules = list_of(alloc, value, "net_port", |_, rule| port_rule_of(rule))?;
    let scopes = scopes_of(value)?;
    Ok(LayerRead {
        handled_files,
        handled_network,
        rules,
        port_rules,
        scopes,
    })
}

/// Rules without the texts of their paths.
fn path_rules_of(alloc: Global, rules: &[RuleRead]) -> Result<Vec<PathRule>, AllocError>
    ensures { IfOk result (λ bare. bare.items ≡ map (λ seen. seen.rule) rules.now) }
{
    let mut bare = Vec::new(alloc);
    for rule in rules {
        bare.push(rule.rule)?;
    }
    Ok(bare)
}

/// A layer without the texts of its paths.
fn written_of(alloc: Global, layer: &LayerRead) -> Result<Layer, AllocError>
    ensures { IfOk result (λ bare. written bare ≡ lines.written_in layer.now) }
{
    Ok(Layer {
        handled_files: layer.handled_files,
        handled_network: layer.handled_network,
        path_rules: path_rules_of(alloc, &layer.rules)?,
        port_rules: layer.port_rules.clone()?,
        scopes: layer.scopes,
    })
}

/// Layers without the texts of their paths.
fn all_written(alloc: Global, layers: &[LayerRead]) -> Result<Vec<Layer>, AllocError>
    ensures { IfOk result (λ bare. map written bare.items
        ≡ map lines.written_in layers.now) }
{
    let mut bare = Vec::new(alloc);
    for layer in layers {
        bare.push(written_of(alloc, layer)?)?;
    }
    Ok(bare)
}

/// The policy of layers.
#[tactic(auto, unfolding(crate::specs::PolicyLines::if_fit))]
fn policy_with(alloc: Global, layers: Vec<LayerRead>) -> Result<PolicyRead, Cause>
    ensures layers { Gives (λ read. read.layers.items) result
        (lines.if_fit layers.items) }
    ensures policy { IfOk result (λ read. read.policy
        ≡ map lines.written_in read.layers.items) }
{
    let bare = all_written(alloc, &layers)?;
    match Policy::new(bare) {
        Ok(policy) => Ok(PolicyRead { layers, policy }),
        Err(_) => Err(Cause::Field),
    }
}

/// The policy that a value describes.
#[tactic(auto, unfolding(crate::specs::PolicyLines::policy_in))]
fn policy_of(alloc: Global, value: &Value) -> Result<PolicyRead, Cause>
    ensures layers { Gives (λ read. read.layers.items) result
        (lines.policy_in (view value.now)) }
    ensures policy { IfOk result (λ read. read.policy
        ≡ map lines.written_in read.layers.items) }
{
    let layers = list_of(alloc, value, "layer", |_, layer| layer_of(alloc, layer))?;
    policy_with(alloc, layers)
}

impl PolicyRead {
    /// Reads the policy on a line: one JSON object.
    #[tactic(auto, unfolding(crate::specs::PolicyLines::policy_on))]
    pub fn read(alloc: Global, line: &[u8]) -> Result<PolicyRead, Cause>
        ensures layers { Gives (λ read. read.layers.items) result
            (lines.policy_on line.now) }
        ensures policy { IfOk result (λ read. read.policy
            ≡ map lines.written_in read.layers.items) }
    {
        let value = value_of(alloc, line)?;
        policy_of(alloc, &value)
    }
}
