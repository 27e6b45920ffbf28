//! The rules of a policy.

ghost use Rattle.std.specs.Prelude.{◌≡◌};
ghost use Rattle.serde_json.specs.View.{view};
ghost use Rattle.ll_lines.specs.Readers.{Gives, Reads};
ghost use Rattle.ll_calling.specs.PolicyLines as lines;

use crate::access::access_of;
use ll_fitting::{Access, Parent, PathRule, PortRule};
use ll_lines::Cause;
use ll_rights::{Fs, RightSet};
use ll_tree::kind_of;
use ll_values::{number_of, text_in_list, text_of};
use serde_json::Value;
use std::alloc::Global;
use std::marker::Model;

/// A rule on a path.
#[derive(Drop)]
pub struct RuleRead {
    pub rule: PathRule,
    pub path: String,
}

impl Model for RuleRead {
    ghost use Rattle.std.specs.Prelude.{string_bytes};
    ghost use Rattle.ll_calling.specs.PolicyLines.{RuleSeen};

    ghost Value = { RuleSeen };

    ghost view = { λ read. record { rule = read.rule; path = string_bytes read.path } };
}

/// What is at the path of a rule.
#[tactic(auto, unfolding(crate::specs::PolicyLines::parent_at))]
fn parent_of(value: &Value) -> Result<Parent, Cause>
    ensures { Reads (λ parent. parent) result (lines.parent_at (view value.now)) }
{
    match value.get("kind") {
        None => Ok(Parent::Missing),
        Some(name) => {
            let name = text_in_list(name)?;
            let kind = kind_of(name).ok_or(Cause::Field)?;
            Ok(Parent::There { object: 0, kind })
        }
    }
}

/// Whether a rule is of an included group.
#[tactic(auto, unfolding(crate::specs::PolicyLines::included_at))]
fn included_of(value: &Value) -> Result<bool, Cause>
    ensures { Reads (λ included. included) result (lines.included_at (view value.now)) }
{
    match value.get("group") {
        None => Ok(false),
        Some(name) => {
            let _name = text_in_list(name)?;
            Ok(true)
        }
    }
}

/// What a rule allows.
#[tactic(auto, unfolding(crate::specs::PolicyLines::allowed_by))]
fn allowed_by(included: bool, access: Access<Fs>) -> Access<Fs>
    ensures { result ≡ lines.allowed_by included access }
{
    if included {
        return Access {
            named: Fs::NONE,
            grouped: access.named.union(access.grouped),
        };
    }
    access
}

/// The rule on a path that a value describes.
#[tactic(auto, unfolding(crate::specs::PolicyLines::rule_in))]
pub(crate) fn rule_of(alloc: Global, value: &Value) -> Result<RuleRead, Cause>
    ensures { Gives (λ rule. rule) result (lines.rule_in (view value.now)) }
{
    let access = access_of(value, "allowed_access")?;
    let path = text_of(value, "parent")?;
    let parent = parent_of(value)?;
    let included = included_of(value)?;
    let path = String::from_str(alloc, path)?;
    Ok(RuleRead {
        rule: PathRule {
            allowed: allowed_by(included, access),
            parent,
            included,
        },
        path,
    })
}

/// The rule on a port that a value describes.
#[tactic(auto, unfolding(crate::specs::PolicyLines::port_rule_in))]
pub(crate) fn port_rule_of(value: &Value) -> Result<PortRule, Cause>
    ensures { Gives (λ rule. rule) result (lines.port_rule_in (view value.now)) }
{
    let allowed = access_of(value, "allowed_access")?;
    let port = number_of(value, "port")?;
    Ok(PortRule { allowed, port })
}
