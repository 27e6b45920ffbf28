//! What holds by the definitions, and of findings.

ghost use Rattle.std.specs.Prelude.{◌≡◌, ◌∷◌, ℕ, List, [], codes};
ghost use Rattle.ll_rights.specs.{declared.abi.Abi.Abi as Version, declared.abi.Abi.TheVariants.V4};
ghost use Rattle.ll_tree.specs.{Trees.Entry, WorkedTree.worked_tree};
ghost use Rattle.ll_trace.specs.declared.op.Record.{Record as OneRecord};
ghost use Rattle.ll_semantics.specs.Worlds.{judged};
ghost use Rattle.ll_findings.specs.TakenRecords.{AreTaken};
ghost use Rattle.ll_findings.specs.Findings.{FindingValue, Finds};
ghost use Rattle.ll_report.specs.{declared.options.Shown.Shown, Found.found_under, Versions.found_in, Lines.lines_of};
ghost use Rattle.ll_report.specs.Kinds.{ArePartedByKind, kinds_of, kinds_text};
ghost use Rattle.ll_report.specs.Report.{report_text};
ghost use Rattle.ll_report.specs.Rows.{kind_head};
ghost use Rattle.ll_report.specs.Spans.{all_spread_out, numbered_from, spans_of};

/// The report on an empty trace.
pub fn empty_report()
    ensures { report_text (lines_of [] (judged worked_tree V4 []))
        ≡ codes "total 0 allowed 0 refused 0 moot 0\n" }
{}

/// What is said under neighbouring versions is what their spans say, spread out again: each version
/// stands in one span, under its own number and with what was said under it.
#[tactic(auto, using(crate::proofs::SpansWhole::spans_whole))]
pub fn spans_give_back_what_was_said()
    ensures { (oldest : ℕ) (said : List (List ℕ))
        → all_spread_out (spans_of oldest said) ≡ numbered_from oldest said }
{}

/// What a finding says is what is found by the definitions, also by the records of the trace that a kernel has
/// taken.
#[tactic(auto, using(crate::proofs::FoundJudged::found_as_judged))]
pub fn findings_say_what_is_found()
    ensures { (shown : Shown) (tree : List Entry) (abi : Version) (records trace : List OneRecord)
        (finding : FindingValue) → Finds shown.explanations tree abi records finding
        → AreTaken trace records
        → found_in shown.explanations tree trace finding ≡ found_under shown tree records abi }
{}

/// Each record of which something is said is of one kind, the kinds have as many records as there are of these, and the
/// first record of each kind is the one with the least index.
#[tactic(auto, using(crate::proofs::KindsParted::parted))]
pub fn kinds_part_the_records()
    ensures { (said : List (List ℕ)) → ArePartedByKind said }
{}

/// The kinds of five records, of which the second is left out.
pub fn worked_kinds()
    ensures kinds { kinds_of (codes "exit" ∷ [] ∷ codes "nnp" ∷ codes "exit" ∷ codes "exit" ∷ [])
        ≡ record { first = 0; records = 3 } ∷ record { first = 2; records = 1 } ∷ [] }
    ensures rows { kinds_text kind_head (1 ∷ 2 ∷ 3 ∷ 4 ∷ 5 ∷ [])
        (codes "exit\n" ∷ [] ∷ codes "nnp\n" ∷ codes "exit\n" ∷ codes "exit\n" ∷ [])
        ≡ codes "3 1 exit\n1 3 nnp\n" }
{}
