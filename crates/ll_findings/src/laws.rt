//! What holds of records as kernels take them, and of findings.

ghost use Rattle.std.specs.Prelude.{◌≡◌, ℕ, List, None, Some, slice_get, false, true};
ghost use Rattle.ll_rights.specs.declared.abi.Abi.{Abi as Version};
ghost use Rattle.ll_tree.specs.Trees.{Entry};
ghost use Rattle.ll_trace.specs.{declared.op.Record.Record as OneRecord, declared.trace.Effort.Effort};
ghost use Rattle.ll_trace.specs.Taken.{records_by};
ghost use Rattle.ll_semantics.specs.{declared.answer.Answer.Answer as Given, Worlds.judged};
ghost use Rattle.ll_findings.specs.Findings.{FindingValue, Finds, Tells, said_in};
ghost use Rattle.ll_findings.specs.TakenRecords.{AreTaken};

/// What a kernel takes the records of a trace for names the same paths, whether at best effort or not.
#[tactic(auto, using(crate::proofs::TakenRecords::all_taken))]
pub fn records_are_taken()
    ensures { (effort : Effort) (abi : Version) (records : List OneRecord)
        → AreTaken records (records_by effort abi records) }
{}

/// A finding tells of each record the explanation that the definitions give, also by the records of the trace that a
/// kernel has taken. One that keeps no explanations tells nothing.
pub fn findings_tell_what_is_judged()
    ensures told { (tree : List Entry) (abi : Version) (records trace : List OneRecord)
        (finding : FindingValue) → Finds true tree abi records finding → AreTaken trace records
        → (index : ℕ) (r : OneRecord) (answer : Given) → slice_get records index ≡ Some r
        → slice_get (judged tree abi records) index ≡ Some answer
        → Tells tree abi records index answer r (said_in trace finding index) }
    ensures nothing { (tree : List Entry) (abi : Version) (records trace : List OneRecord)
        (finding : FindingValue) → Finds false tree abi records finding
        → (index : ℕ) → said_in trace finding index ≡ None }
{}
