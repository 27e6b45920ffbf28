//! What holds of the calls that put a policy in force, and of traces that were read.

ghost use Rattle.std.specs.Prelude.{◌≡◌, ◌≤◌, ℕ, false, List, Some, None, All, find};
ghost use Rattle.ll_rights.specs.{declared.abi.Abi.Abi, Abis.number_of};
ghost use Rattle.ll_tree.specs.Trees.{Entry};
ghost use Rattle.ll_trace.specs.{declared.op.Record.Record, Records.IsTrace};
ghost use Rattle.ll_semantics.specs.Worlds.{World, judged};
ghost use Rattle.ll_fitting.specs.Written.{Layer};
ghost use Rattle.ll_fitting.specs.Misfits.{misfit};
ghost use Rattle.ll_fitting.specs.Fitting.{Fitted, fitted};
ghost use Rattle.ll_fitting.specs.Taken.{first_refused};
ghost use Rattle.ll_fitting.specs.declared.fitting.FittedPathRule.{FittedPathRule as Rule};
ghost use Rattle.ll_fitting.specs.declared.refusing.RefusedRule.{RefusedRule};
ghost use Rattle.ll_enforcing.specs.Calls.{calls_of};
ghost use Rattle.ll_enforcing.specs.Answered.{answer_of, is_refusal, IsTheSame, MayEnforce};
ghost use Rattle.ll_enforcing.specs.PlainRestricting.{plainly_judged};

use crate::calls::Call;

/// If no rule is refused by [`ll_fitting::first_refused`], no call is refused. Otherwise the first call that is refused
/// adds the rule that it names.
pub fn the_first_refused_rule_is_named()
    ensures none { (layers : List Fitted) → first_refused layers ≡ None
        → All (λ call. is_refusal (answer_of call) ≡ false) (calls_of layers) }
    ensures named { (layers : List Fitted) (refused : RefusedRule)
        → first_refused layers ≡ Some refused
        → (rule : Rule) × (rule.rule ≡ refused.rule)
        × (find (λ call. is_refusal (answer_of call)) (calls_of layers)
        ≡ Some (Call.AddPath refused.layer rule)) }
{}

/// The calls for a newer version, made at best effort at an older one, give a process the layers that the older version
/// leaves of the policy, and besides only layers that handle nothing. Some of these calls is refused exactly if the older
/// version refuses a rule of the policy.
pub fn best_effort_gives_the_same_layers()
    ensures { (older newer : Abi) → number_of older ≤ number_of newer → (policy : List Layer)
        → misfit policy ≡ None
        → (tree : List Entry) (missing : List ℕ) (rs process : ℕ) (world : World)
        → MayEnforce tree missing rs process (fitted newer policy) world
        → IsTheSame tree missing rs older newer process policy world }
{}

/// The semantics answer a `restrict` by a ruleset that handles nothing in a way of its own, since best effort has such
/// rulesets and the kernel has none. Every trace that was read from a file is judged the same without that rule.
pub fn rulesets_that_handle_nothing_are_not_read()
    ensures { (bytes : List ℕ) (records : List Record) → IsTrace bytes records
        → (tree : List Entry) (abi : Abi)
        → judged tree abi records ≡ plainly_judged tree abi records }
{}
