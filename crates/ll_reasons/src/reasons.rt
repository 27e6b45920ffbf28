//! What holds of the reasons why calls are moot.

ghost use Rattle.std.specs.Prelude.{◌≡◌, ℕ, List, [], true, is_some, IsSomeAnd};
ghost use Rattle.ll_rights.specs.declared.abi.Abi.{Abi};
ghost use Rattle.ll_tree.specs.Trees.{Entry, node_at};
ghost use Rattle.ll_trace.specs.{declared.op.Record.Record, declared.op.Op.Op};
ghost use Rattle.ll_semantics.specs.declared.answer.Answer.TheVariants.{Moot, Refused};
ghost use Rattle.ll_rules.specs.declared.errno.Errno.{Errno};
ghost use Rattle.ll_reasons.specs.{Conditions.condition, ConditionsHold.IsCondition, Reasons.reason};
ghost use Rattle.ll_reasons.specs.ReasonsHold.{Holds, are_spelt};
ghost use Rattle.ll_reasons.specs.Explanations.{origins_at, state_at, answer_at, rulesets_at};

/// A moot call has a reason, and what this says holds of the tree, the call and the state of its process: for a tree
/// that has a root, and a call whose paths are spelt as such.
#[tactic(auto, using(crate::proofs::ReasonsTrue::reason_at))]
pub fn reasons_hold()
    ensures { (tree : List Entry) (abi : Abi) (records : List Record) (index process : ℕ) (op : Op)
        (there : is_some (node_at tree []) ≡ true) (spelt : are_spelt op ≡ true)
        → answer_at tree abi records index process op ≡ Moot
        → IsSomeAnd (reason tree (origins_at tree abi records index process) op)
        (Holds tree (state_at tree abi records index process) op) }
{}

/// Where a call fails with an error that no layer gives, what the condition says of it holds.
#[tactic(auto, using(crate::proofs::ConditionsTrue::condition_at))]
pub fn conditions_hold()
    ensures { (tree : List Entry) (abi : Abi) (records : List Record) (index process : ℕ)
        (op : Op) (error : Errno)
        → answer_at tree abi records index process op ≡ Refused error []
        → IsCondition abi (rulesets_at tree abi records index)
        (state_at tree abi records index process) op
        (condition abi records (origins_at tree abi records index process) op error) }
{}
