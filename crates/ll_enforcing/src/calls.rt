//! The calls that put a policy in force.

ghost use Rattle.std.specs.Prelude.{◌≡◌, ℕ, List, ◌++◌, IfOk, OnOk, map};
ghost use Rattle.ll_tree.specs.Trees.{Entry};
ghost use Rattle.ll_semantics.specs.Worlds.{World};
ghost use Rattle.ll_fitting.specs.Fitting.{fitted, shown};
ghost use Rattle.ll_enforcing.specs.Answered.{MayEnforce, IsEnforced};
ghost use Rattle.ll_enforcing.specs.Calls.{calls_of, calls_of_layer};

use ll_fitting::{FittedLayer, FittedPathRule, FittedPortRule, Policy};
use ll_rights::{Abi, Fs, Net};
use std::alloc::{AllocError, Global};

/// A call by which a process restricts itself. A call on a ruleset names the layer that this becomes, by its index in
/// the policy.
#[derive(Clone, Copy, Debug, PartialEq, Eq)]
pub enum Call {
    /// prctl(2), PR_SET_NO_NEW_PRIVS.
    NoNewPrivs,
    /// landlock_create_ruleset(2).
    CreateRuleset {
        layer: usize,
        files: Fs,
        network: Net,
    },
    /// landlock_add_rule(2) under a path.
    AddPath {
        layer: usize,
        rule: FittedPathRule,
    },
    /// landlock_add_rule(2) on a port.
    AddPort {
        layer: usize,
        rule: FittedPortRule,
    },
    /// landlock_restrict_self(2).
    RestrictSelf {
        layer: usize,
    },
    /// close(2) of the ruleset.
    CloseRuleset {
        layer: usize,
    },
}

/// Adds the calls for a layer.
#[tactic(auto, unfolding(crate::specs::Calls::calls_of_layer))]
fn add_layer(calls: &mut Vec<Call>, left: &FittedLayer) -> Result<(), AllocError>
    ensures { OnOk result
        (calls.new.items ≡ calls.old.items ++ calls_of_layer (shown left.now)) }
{
    let layer = left.layer;
    calls.push(Call::CreateRuleset {
        layer,
        files: left.files,
        network: left.network,
    })?;
    for rule in &left.path_rules {
        calls.push(Call::AddPath { layer, rule: *rule })?;
    }
    for rule in &left.port_rules {
        calls.push(Call::AddPort { layer, rule: *rule })?;
    }
    calls.push(Call::RestrictSelf { layer })?;
    calls.push(Call::CloseRuleset { layer })?;
    Ok(())
}

/// The calls that put layers in force, the oldest layer first.
#[tactic(auto, unfolding(crate::specs::Calls::calls_of))]
fn calls_of(alloc: Global, layers: &[FittedLayer]) -> Result<Vec<Call>, AllocError>
    ensures { IfOk result (λ calls. calls.items ≡ calls_of (map shown layers.now)) }
{
    let mut calls = Vec::new(alloc);
    calls.push(Call::NoNewPrivs)?;
    for left in layers {
        add_layer(&mut calls, left)?;
    }
    Ok(calls)
}

/// The calls that put a policy in force at a version of the interface. If the process that makes them has room for the
/// layers, each call is answered as `answer_of` says, and then the process has the layers that the version leaves of
/// the policy, rule for rule, on top of its own.
pub fn enforce(alloc: Global, policy: &Policy, abi: Abi) -> Result<Vec<Call>, AllocError>
    ensures calls { IfOk result (λ calls. calls.items ≡ calls_of (fitted abi policy.now)) }
    ensures in_force { (tree : List Entry) (missing : List ℕ) (rs process : ℕ) (world : World)
        → MayEnforce tree missing rs process (fitted abi policy.now) world
        → IsEnforced tree missing rs abi process (fitted abi policy.now) world }
{
    let layers = policy.fit(alloc, abi)?;
    calls_of(alloc, &layers)
}
