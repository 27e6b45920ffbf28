//! What holds of the layers that an explanation names, and of a record without one.

ghost use Rattle.std.specs.Prelude.{◌≡◌, ℕ, List, ◌∷◌, map, Some, slice_get};
ghost use Rattle.ll_rights.specs.declared.abi.Abi.{Abi};
ghost use Rattle.ll_tree.specs.Trees.{Entry};
ghost use Rattle.ll_rules.specs.declared.errno.Errno.{Errno};
ghost use Rattle.ll_trace.specs.{declared.op.Record.Record, declared.op.Op.Op};
ghost use Rattle.ll_semantics.specs.declared.answer.Answer.TheVariants.{Allowed, Refused};
ghost use Rattle.ll_semantics.specs.{States.Layer, Worlds.judged};
ghost use Rattle.ll_reasons.specs.{Objections.Objection, Origins.Origins};
ghost use Rattle.ll_reasons.specs.Explanations.{objections_to, domain_at, origins_at, objections, explained, explained_at, answer_at, nothing};

/// The layers that are explained are exactly those that refuse, in order: for every call of a process before the
/// record at an index, and so for each record of a trace.
#[tactic(auto, using(crate::proofs::Numbers::numbers_at, crate::proofs::Numbers::record_numbers))]
pub fn refusing_layers_are_explained()
    ensures calls { (tree : List Entry) (abi : Abi) (records : List Record)
        (index process : ℕ) (op : Op)
        (error : Errno) (number : ℕ) (numbers : List ℕ)
        → answer_at tree abi records index process op ≡ Refused error (number ∷ numbers)
        → map (λ said. said.0) (objections_to tree (domain_at tree abi records index process)
        (origins_at tree abi records index process) op error (number ∷ numbers))
        ≡ number ∷ numbers }
    ensures records { (tree : List Entry) (abi : Abi) (records : List Record)
        (index : ℕ) (r : Record)
        (error : Errno) (number : ℕ) (numbers : List ℕ)
        → slice_get records index ≡ Some r
        → slice_get (judged tree abi records) index ≡ Some (Refused error (number ∷ numbers))
        → (said : List (ℕ × List Objection))
        × (explained_at tree abi records index r (Refused error (number ∷ numbers))
        ≡ objections said)
        × (map (λ one. one.0) said ≡ number ∷ numbers) }
{}

/// A record that is allowed has no explanation.
#[tactic(auto, unfolding(crate::specs::Explanations::explained))]
pub fn allowed_records_need_no_explanation()
    ensures { (tree : List Entry) (abi : Abi) (records : List Record)
        (domain : List Layer) (o : Origins) (op : Op)
        → explained tree abi records domain o op Allowed ≡ nothing }
{}
