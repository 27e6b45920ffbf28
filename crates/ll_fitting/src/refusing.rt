//! The rules that the kernel refuses.

ghost use Rattle.std.specs.Prelude.{◌≡◌, map};
ghost use Rattle.ll_rules.specs.Rulesets.{are_file_rights};
ghost use Rattle.ll_fitting.specs.Fitting.{shown};
ghost use Rattle.ll_fitting.specs.Taken.{is_refused, refused_in, first_refused};

use crate::fitting::{FittedLayer, FittedPathRule};
use crate::rights::is_directory;
use crate::told::first_told;
use crate::written::Parent;
use ll_rights::{Fs, RightSet};

/// A rule that the kernel refuses, by the indices of its layer in the policy and of the rule in it.
#[derive(Clone, Copy, Debug, PartialEq, Eq)]
pub struct RefusedRule {
    pub layer: usize,
    pub rule: usize,
}

/// Whether each right of a set applies to what isn't a directory.
#[tactic(auto, using(ll_rules::proofs::RightSets::file_known, ll_rules::proofs::RightSets::file_rights_by_test))]
fn are_for_files(rights: Fs) -> bool
    ensures { result ≡ are_file_rights rights }
{
    rights.is_within(Fs::FILE)
}

/// Whether the kernel refuses a rule (landlock_add_rule(2), `EINVAL`).
#[tactic(auto, unfolding(crate::specs::Taken::is_refused))]
fn is_refused(rule: FittedPathRule) -> bool
    ensures { result ≡ is_refused rule }
{
    match rule.parent {
        Parent::There { kind, .. } => !is_directory(kind) && !are_for_files(rule.rights),
        Parent::Missing => false,
    }
}

/// The first rule of a layer that the kernel refuses.
fn refused_in(left: &FittedLayer) -> Option<RefusedRule>
    ensures { result ≡ refused_in (shown left.now) }
{
    let first = left.path_rules.iter().find(|rule| is_refused(**rule))?;
    Some(RefusedRule {
        layer: left.layer,
        rule: first.rule,
    })
}

/// The first rule of a policy that the kernel refuses. If there is none, nothing of the policy is refused.
pub fn first_refused(layers: &[FittedLayer]) -> Option<RefusedRule>
    ensures { result ≡ first_refused (map shown layers.now) }
{
    first_told(layers, |_, left| refused_in(left))
}
