//! Policies: what a version leaves of one, the calls that enforce it, and what is wrong with others.

use ll_enforcing::{Call, enforce};
use ll_fitting::{
    Access, FittedLayer, Layer, Misfit, Parent, PathRule, Policy, PortRule, RefusedRule, Scopes,
    first_refused,
};
use ll_rights::{Abi, Fs, Kind, Net, RightSet};
use std::alloc::Global;
use std::test::Fail;

/// Rights that a policy names outright.
fn named<S: RightSet>(rights: S) -> Access<S> {
    Access {
        named: rights,
        grouped: S::none(),
    }
}

/// A rule of the policy's own on object 1.
fn rule_on(kind: Kind, allowed: Access<Fs>) -> PathRule {
    PathRule {
        allowed,
        parent: Parent::There { object: 1, kind },
        included: false,
    }
}

/// A layer that handles reading and connecting, with a rule on an object and one on port 443.
fn layer_with(alloc: Global, rule: PathRule) -> Result<Layer, Fail> {
    let connecting = named(Net::CONNECT_TCP);
    let mut path_rules = Vec::new(alloc);
    path_rules.push(rule)?;
    let mut port_rules = Vec::new(alloc);
    port_rules.push(PortRule {
        allowed: connecting,
        port: 443,
    })?;
    Ok(Layer {
        handled_files: named(Fs::READ_FILE.union(Fs::READ_DIR)),
        handled_network: connecting,
        path_rules,
        port_rules,
        scopes: Scopes {
            abstract_unix_socket: false,
            signal: false,
        },
    })
}

/// The policy of one layer with a rule, or the first thing that is wrong with it.
fn policy_with(alloc: Global, rule: PathRule) -> Result<Result<Policy, Misfit>, Fail> {
    let mut layers = Vec::new(alloc);
    layers.push(layer_with(alloc, rule)?)?;
    Ok(Policy::new(layers))
}

/// How many calls enforce the policy with a rule, and the third of them.
fn calls_for(alloc: Global, rule: PathRule, abi: Abi) -> Result<(usize, Option<Call>), Fail> {
    let Ok(policy) = policy_with(alloc, rule)? else {
        return Err(Fail::from("the policy is wrong"));
    };
    let calls = enforce(alloc, &policy, abi)?;
    Ok((calls.len(), calls.get(2).copied()))
}

/// The rights of a rule that is added by a call.
fn rights_of(call: Option<Call>) -> Fs {
    match call {
        Some(Call::AddPath { rule, .. }) => rule.rights,
        _ => Fs::NONE,
    }
}

/// Version 4 has rules for ports, and version 3 has none (landlock(7), "VERSIONS").
#[test]
fn calls_that_enforce(rt: HostRuntime) -> Result<(), Fail> {
    let rule = rule_on(Kind::Dir, named(Fs::READ_FILE));
    let (with_ports, third) = calls_for(rt.alloc(), rule, Abi::V4)?;
    assert_eq!(rt; with_ports, 6);
    assert_eq!(rt; rights_of(third), Fs::READ_FILE);
    let (without_ports, _) = calls_for(rt.alloc(), rule, Abi::V3)?;
    assert_eq!(rt; without_ports, 5);
    Ok(())
}

/// The first rule that the kernel refuses, of what a version leaves of the policy with a rule.
fn refused_with(alloc: Global, rule: PathRule) -> Result<Option<RefusedRule>, Fail> {
    let Ok(policy) = policy_with(alloc, rule)? else {
        return Err(Fail::from("the policy is wrong"));
    };
    let left: Vec<FittedLayer> = policy.fit(alloc, Abi::V1)?;
    Ok(first_refused(&left))
}

/// A file has no rule for reading directories (landlock_add_rule(2), `EINVAL`); a group leaves it out.
#[test]
fn rules_on_files(rt: HostRuntime) -> Result<(), Fail> {
    let reading = Fs::READ_FILE.union(Fs::READ_DIR);
    let group = Access {
        named: Fs::NONE,
        grouped: reading,
    };
    let own = refused_with(rt.alloc(), rule_on(Kind::Reg, named(reading)))?;
    assert_eq!(rt; own, Some(RefusedRule { layer: 0, rule: 0 }));
    let grouped = refused_with(rt.alloc(), rule_on(Kind::Reg, group))?;
    assert_eq!(rt; grouped, None);
    Ok(())
}

/// What is wrong with the policy with a rule.
fn misfit_with(alloc: Global, rule: PathRule) -> Result<Option<Misfit>, Fail> {
    Ok(policy_with(alloc, rule)?.err())
}

/// The layer has to handle what a rule names (landlock_add_rule(2), `EINVAL`).
#[test]
fn wrong_policies(rt: HostRuntime) -> Result<(), Fail> {
    let right = misfit_with(rt.alloc(), rule_on(Kind::Dir, named(Fs::READ_FILE)))?;
    assert_eq!(rt; right, None);
    let wrong = misfit_with(rt.alloc(), rule_on(Kind::Dir, named(Fs::WRITE_FILE)))?;
    assert!(rt;
        matches!(
            wrong,
            Some(Misfit::PathRule {
                layer: 0,
                rule: 0,
                ..
            })
        ),
        "{wrong:?}"
    );
    Ok(())
}
