//! What rules grant on objects and on ports, by their numbers.

ghost use Rattle.std.specs.Prelude.{codes};
ghost use Rattle.serde_json.specs.View.{view, items_view};
ghost use Rattle.ll_lines.specs.Readers.{Gives, Reads};
ghost use Rattle.ll_members.specs.Rights.{net_at};
ghost use Rattle.ll_values.specs.Lists.{fold_items};
ghost use Rattle.ll_comparison.specs.Comparisons.{rights_at, with_rights_on, with_rule, granted_at};

use ll_lines::Cause;
use ll_rights::{Fs, Net, RightSet};
use ll_values::{fs_of, items_of, net_of, place_in_list};
use serde_json::Value;
use std::alloc::{AllocError, Global};

/// Sets of rights that rules grant: those for files on objects, those for the network on ports.
pub(crate) trait Granted: RightSet {
    ghost use Rattle.std.specs.Prelude.{◌≡◌, IfOk, Result, replicate};
    ghost use Rattle.ll_rights.specs.Families.{no_right};
    ghost use Rattle.serde_json.specs.Data.{Data};
    ghost use Rattle.serde_json.specs.View.{view};
    ghost use Rattle.ll_lines.specs.declared.fault.Cause as cause;
    ghost use Rattle.ll_lines.specs.Readers.{Reads};

    ghost in_rule: { Data → Result Self cause.Cause };

    /// The rights of a rule.
    fn of_rule(rule: &Value) -> Result<Self, Cause>
        ensures { Reads (λ granted. granted) result (in_rule (view rule.now)) };

    /// No right on each of so many numbers.
    fn none_on(alloc: Global, count: usize) -> Result<Vec<Self>, AllocError>
        ensures { IfOk result (λ sets. sets.items ≡ replicate count (no_right Self.family)) };
}

impl Granted for Fs {
    ghost in_rule = { rights_at (codes "fs") };

    fn of_rule(rule: &Value) -> Result<Fs, Cause> {
        fs_of(rule, "fs")
    }

    fn none_on(alloc: Global, count: usize) -> Result<Vec<Fs>, AllocError> {
        vec![in alloc; Fs::NONE; count]
    }
}

impl Granted for Net {
    ghost in_rule = { net_at };

    fn of_rule(rule: &Value) -> Result<Net, Cause> {
        net_of(rule)
    }

    fn none_on(alloc: Global, count: usize) -> Result<Vec<Net>, AllocError> {
        vec![in alloc; Net::NONE; count]
    }
}

/// Grants some rights more on what has a number.
#[tactic(auto, unfolding(crate::specs::Comparisons::with_rights_on))]
fn grant_on<S: Granted>(sets: &mut [S], rights: S, number: &Value) -> Result<(), Cause>
    ensures { Reads (λ _. sets.new) result
        (with_rights_on S.family rights sets.old (view number.now)) }
{
    let place = place_in_list(sets.len(), number)?;
    sets[place] = sets[place].union(rights);
    Ok(())
}

/// Grants some rights more on each of some numbers.
#[tactic(auto, using(ll_values::proofs::Folds::fold_fault, ll_values::proofs::Folds::fold_end))]
fn grant_on_each<S: Granted>(sets: &mut [S], rights: S, numbers: &[Value]) -> Result<(), Cause>
    ensures { Reads (λ _. sets.new) result
        (fold_items (with_rights_on S.family rights) sets.old (items_view numbers.now)) }
{
    for number in numbers {
        grant_on(sets, rights, number)?;
    }
    Ok(())
}

/// Grants what a rule grants, on the numbers of a member.
#[tactic(auto, unfolding(crate::specs::Comparisons::with_rule))]
fn take_rule<S: Granted>(sets: &mut [S], name: &str, rule: &Value) -> Result<(), Cause>
    ensures { Reads (λ _. sets.new) result
        (with_rule S.family S.in_rule name.now sets.old (view rule.now)) }
{
    let rights = S::of_rule(rule)?;
    let numbers = items_of(rule, name)?;
    grant_on_each(sets, rights, numbers)
}

/// Grants what each of some rules grants.
#[tactic(auto, using(ll_values::proofs::Folds::fold_fault, ll_values::proofs::Folds::fold_end))]
fn take_rules<S: Granted>(sets: &mut [S], name: &str, rules: &[Value]) -> Result<(), Cause>
    ensures { Reads (λ _. sets.new) result
        (fold_items (with_rule S.family S.in_rule name.now) sets.old (items_view rules.now)) }
{
    for rule in rules {
        take_rule(sets, name, rule)?;
    }
    Ok(())
}

/// What the rules of a layer grant on each of so many numbers.
#[tactic(auto, unfolding(crate::specs::Comparisons::granted_at))]
pub(crate) fn granted_by_rules<S: Granted>(
    alloc: Global,
    count: usize,
    rules: &str,
    name: &str,
    layer: &Value,
) -> Result<Vec<S>, Cause>
    ensures { Gives (λ sets. sets.items) result
        (granted_at S.family S.in_rule rules.now name.now count (view layer.now)) }
{
    let rules = items_of(layer, rules)?;
    let mut sets = S::none_on(alloc, count)?;
    take_rules(&mut sets, name, rules)?;
    Ok(sets)
}
