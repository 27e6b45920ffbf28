//! What some explanations say, and what findings say.

ghost use Rattle.std.specs.Prelude.{◌≡◌, ◌∷◌, [], ℕ, Bool, List, Some, codes, false, if◌then◌else◌};
ghost use Rattle.ll_rights.specs.declared.abi.Abi.{Abi as Version};
ghost use Rattle.ll_rights.specs.declared.abi.Abi.TheVariants.{V3, V4};
ghost use Rattle.ll_rights.specs.Rights.{execute, other, read_file, refer, truncate, write_file};
ghost use Rattle.ll_rights.specs.NetRights.{bind_tcp};
ghost use Rattle.ll_tree.specs.Trees.{Entry};
ghost use Rattle.ll_trace.specs.declared.op.Record.{Record as OneRecord};
ghost use Rattle.ll_trace.specs.declared.op.Op.TheVariants.{Nnp, OpenFile};
ghost use Rattle.ll_trace.specs.declared.op.Mode.TheVariants.{Write};
ghost use Rattle.ll_reasons.specs.Conditions.{unhandled, unknown};
ghost use Rattle.ll_reasons.specs.Explanations.{failure, mootness, nothing, objections};
ghost use Rattle.ll_reasons.specs.Objections.{closed, gained, kept, missing};
ghost use Rattle.ll_reasons.specs.Reasons.{absent, unsupported, unenforced};
ghost use Rattle.ll_findings.specs.TakenRecords.{AreTaken};
ghost use Rattle.ll_findings.specs.Findings.{FindingValue, Finds};
ghost use Rattle.ll_explain.specs.{Explained.text_at, Told.text_told, Words.explanation_text};

/// A finding says of each record what the definitions say, also by the records of the trace that a kernel has
/// taken. One
/// that keeps no explanations says nothing.
#[tactic(auto, using(crate::proofs::FindingSays::said_as_judged))]
pub fn findings_say_what_is_judged()
    ensures { (explains : Bool) (tree : List Entry) (abi : Version)
        (records trace : List OneRecord) (finding : FindingValue)
        → Finds explains tree abi records finding → AreTaken trace records → (index : ℕ)
        → text_told tree trace finding index
        ≡ (if explains then text_at tree abi records index else []) }
{}

/// The text of some explanations, in a trace whose first record is on line 5 and opens a file.
#[tactic(auto, unfolding(crate::specs::Lines::wording))]
pub fn worked_words()
    ensures nothing { explanation_text [] [] nothing ≡ [] }
    ensures missing { explanation_text
        (record { line = 5; process = record { 0 = 0 }; pid = 10; op = Nnp } ∷ []) (0 ∷ [])
        (objections ((1, missing (read_file ∷ []) (codes "b" ∷ codes "g" ∷ []) ∷ []) ∷ []))
        ≡ codes "    layer 1 (line 5): read_file on /b/g\n" }
    ensures twice { explanation_text
        (record { line = 5; process = record { 0 = 0 }; pid = 10; op = Nnp } ∷ []) (0 ∷ 0 ∷ [])
        (objections
        ((1, missing (refer ∷ []) (codes "a" ∷ []) ∷ missing (refer ∷ []) (codes "b" ∷ []) ∷ [])
        ∷ (2, gained (codes "a" ∷ codes "f" ∷ []) (execute ∷ []) (codes "b" ∷ []) ∷ []) ∷ []))
        ≡ codes
        "    layer 1 (line 5): refer on /a; refer on /b\n    layer 2 (line 5): /a/f would gain execute in /b\n" }
    ensures kept { explanation_text (record {
      line = 5;
      process = record { 0 = 0 };
      pid = 10;
      op = OpenFile (codes "/a/f") 4 Write false false;
    } ∷ []) (0 ∷ [])
        (objections ((1, kept truncate 0 ∷ []) ∷ []))
        ≡ codes "    layer 1 (line 5): truncate on /a/f, opened at line 5\n" }
    ensures port { explanation_text
        (record { line = 5; process = record { 0 = 0 }; pid = 10; op = Nnp } ∷ []) (0 ∷ [])
        (objections ((1, closed (bind_tcp ∷ []) 7 ∷ []) ∷ []))
        ≡ codes "    layer 1 (line 5): bind_tcp on port 7\n" }
    ensures unhandled { explanation_text [] [] (failure (unhandled (write_file ∷ [])))
        ≡ codes "    the ruleset does not handle write_file\n" }
    ensures nameless { explanation_text [] [] (failure (unknown V3 (read_file ∷ other ∷ [])))
        ≡ codes "    ABI 3 does not know read_file, a right of another name\n" }
    ensures for_ports { explanation_text [] [] (failure (unknown V4 []))
        ≡ codes "    ABI 4 does not know a right for ports\n" }
    ensures moot { explanation_text [] [] (mootness (Some (absent (codes "none" ∷ []))))
        ≡ codes "    /none is not in the tree\n" }
    ensures left_out { explanation_text [] [] (mootness (Some unsupported))
        ≡ codes "    left out, as this ABI supports none of the rule's rights\n" }
    ensures unenforced { explanation_text [] [] (mootness (Some unenforced))
        ≡ codes "    left out, as this ABI supports none of the ruleset's rights\n" }
{}
