//! Rulesets that handle nothing, with which a program at best effort makes do.

ghost use Rattle.std.specs.Prelude.{◌≡◌, ◌≢◌, ℕ, List, None, Some, true, false};
ghost use Rattle.ll_rights.specs.{declared.abi.Abi.Abi, declared.fs.Fs.Fs, declared.net.Net.Net};
ghost use Rattle.ll_tree.specs.Trees.{Entry};
ghost use Rattle.ll_rules.specs.declared.errno.Errno.{Errno};
ghost use Rattle.ll_rules.specs.Layers.{handles_nothing, without_rules};
ghost use Rattle.ll_rules.specs.Rulesets.{create_fault};
ghost use Rattle.ll_trace.specs.declared.op.Op.TheVariants.{Restrict};
ghost use Rattle.ll_semantics.specs.declared.answer.Answer.TheVariants.{Moot, Refused};
ghost use Rattle.ll_semantics.specs.States.{State, Layer};
ghost use Rattle.ll_semantics.specs.Answers.{answer, named};

/// Restricting by a ruleset that handles nothing is never refused: a program that makes do with it calls nothing.
/// No other restricting is moot, and no ruleset that the kernel makes handles nothing.
#[tactic(auto, using(crate::proofs::MakingDo::never_refused, crate::proofs::MakingDo::moot_by_nothing, crate::proofs::MakingDo::made_handles))]
pub fn making_do_is_never_refused()
    ensures never_refused { (tree : List Entry) (abi : Abi) (rulesets : List Layer) (rs : ℕ)
        (s : State) (rules : Layer) (error : Errno) (layers : List ℕ)
        → named rulesets (s.held rs) ≡ Some rules → handles_nothing rules ≡ true
        → answer tree abi rulesets (Restrict rs) s ≢ Refused error layers }
    ensures moot { (tree : List Entry) (abi : Abi) (rulesets : List Layer) (rs : ℕ) (s : State)
        → answer tree abi rulesets (Restrict rs) s ≡ Moot
        → (rules : Layer) × (named rulesets (s.held rs) ≡ Some rules)
        × (handles_nothing rules ≡ true) }
    ensures made { (abi : Abi) (files : Fs) (network : Net) → create_fault abi files network ≡ None
        → handles_nothing {P = ℕ} (without_rules files network) ≡ false }
{}
