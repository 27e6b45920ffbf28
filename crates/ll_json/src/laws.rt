//! What some values say, and that lines of the report read back.

ghost use Rattle.std.specs.Prelude.{◌≡◌, ◌∷◌, [], ℕ, List, Some, codes, false};
ghost use Rattle.json.specs.{Print.print, Tree.json_tokens};
ghost use Rattle.ll_rights.specs.{declared.abi.Abi.TheVariants.V4, declared.kind.Kind.TheVariants.Fifo};
ghost use Rattle.ll_rights.specs.Rights.{other, read_file, refer, truncate, write_file};
ghost use Rattle.ll_rights.specs.NetRights.{bind_tcp};
ghost use Rattle.ll_rules.specs.declared.errno.Errno.TheVariants.{XDev};
ghost use Rattle.ll_trace.specs.declared.op.Op.TheVariants.{Nnp, OpenFile};
ghost use Rattle.ll_trace.specs.declared.op.Mode.TheVariants.{Write};
ghost use Rattle.ll_semantics.specs.declared.answer.Answer.TheVariants.{Moot, Refused};
ghost use Rattle.ll_reasons.specs.Conditions.{unhandled, unknown};
ghost use Rattle.ll_reasons.specs.Explanations.{mootness, nothing, objections};
ghost use Rattle.ll_reasons.specs.Objections.{closed, gained, kept, missing, mounting};
ghost use Rattle.ll_reasons.specs.Reasons.{absent, of_kind, unsupported};
ghost use Rattle.ll_json.specs.Records.{answer_json, answer_members};
ghost use Rattle.ll_tree.specs.Trees.{Entry};
ghost use Rattle.ll_trace.specs.declared.op.Record.{Record as OneRecord};
ghost use Rattle.ll_report.specs.declared.options.Shown.{Shown as Options};
ghost use Rattle.ll_json.specs.{ReadBack.FitsWords, ReadBack.ReadsBack, Records.Version};
ghost use Rattle.ll_json.specs.Reports.{kind_at, last_json, row_json};
ghost use Rattle.ll_json.specs.Why.{condition_json, objection_json, reason_json};

/// The text of some objections.
#[tactic(auto, unfolding(crate::specs::Records::printing))]
pub fn worked_objections()
    ensures missing { print (json_tokens
        (objection_json [] (missing (refer ∷ []) (codes "build" ∷ codes "tmp" ∷ []))))
        ≡ codes "{\"missing\":[\"refer\"],\"on\":\"/build/tmp\"}" }
    ensures nameless { print (json_tokens
        (objection_json [] (missing (read_file ∷ other ∷ []) (codes "a\"" ∷ []))))
        ≡ codes "{\"missing\":[\"read_file\",\"a right of another name\"],\"on\":\"/a\\\"\"}" }
    ensures gained { print (json_tokens (objection_json []
        (gained (codes "src" ∷ codes "main.c" ∷ []) (write_file ∷ []) (codes "tmp" ∷ []))))
        ≡ codes "{\"gains\":[\"write_file\"],\"object\":\"/src/main.c\",\"in\":\"/tmp\"}" }
    ensures port { print (json_tokens (objection_json [] (closed (bind_tcp ∷ []) 7)))
        ≡ codes "{\"closed\":[\"bind_tcp\"],\"port\":7}" }
    ensures mounting { print (json_tokens (objection_json [] mounting))
        ≡ codes "{\"mounting\":true}" }
    ensures kept { print (json_tokens (objection_json (record {
      line = 5;
      process = record { 0 = 0 };
      pid = 10;
      op = OpenFile (codes "/a/f") 4 Write false false;
    } ∷ []) (kept truncate 0)))
        ≡ codes "{\"missing\":[\"truncate\"],\"on\":\"/a/f\",\"opened\":5}" }
{}

/// The text of some conditions and reasons.
#[tactic(auto, unfolding(crate::specs::Records::printing))]
pub fn worked_conditions()
    ensures unhandled { print (json_tokens (condition_json (unhandled (write_file ∷ []))))
        ≡ codes "{\"condition\":\"unhandled\",\"rights\":[\"write_file\"]}" }
    ensures for_ports { print (json_tokens (condition_json (unknown V4 [])))
        ≡ codes "{\"condition\":\"unknown\",\"abi\":4,\"rights\":[]}" }
    ensures absent { print (json_tokens (reason_json (absent (codes "none" ∷ []))))
        ≡ codes "{\"reason\":\"absent\",\"path\":\"/none\"}" }
    ensures of_kind { print (json_tokens (reason_json (of_kind (codes "a" ∷ []) Fifo)))
        ≡ codes "{\"reason\":\"of_kind\",\"path\":\"/a\",\"kind\":\"fifo\"}" }
    ensures left_out { print (json_tokens (reason_json unsupported))
        ≡ codes "{\"reason\":\"unsupported\"}" }
{}

/// The text of some answers, in a trace whose first record is on line 6.
#[tactic(auto, unfolding(crate::specs::Records::printing))]
pub fn worked_answers()
    ensures explained { print (json_tokens (answer_json 1 1 (answer_members
        (record { line = 6; process = record { 0 = 0 }; pid = 10; op = Nnp } ∷ []) (0 ∷ [])
        (Refused XDev (1 ∷ []))
        (objections ((1, missing (refer ∷ []) (codes "a" ∷ []) ∷ mounting ∷ []) ∷ [])))))
        ≡ codes
        "{\"abi\":[1,1],\"answer\":\"refused\",\"error\":\"EXDEV\",\"layers\":[{\"layer\":1,\"line\":6,\"objections\":[{\"missing\":[\"refer\"],\"on\":\"/a\"},{\"mounting\":true}]}]}" }
    ensures bare { print (json_tokens
        (answer_json 1 4 (answer_members [] [] (Refused XDev (1 ∷ 2 ∷ [])) nothing)))
        ≡ codes
        "{\"abi\":[1,4],\"answer\":\"refused\",\"error\":\"EXDEV\",\"layers\":[{\"layer\":1},{\"layer\":2}]}" }
    ensures moot { print (json_tokens
        (answer_json 1 1 (answer_members [] [] Moot (mootness (Some (absent (codes "none" ∷ [])))))))
        ≡ codes
        "{\"abi\":[1,1],\"answer\":\"moot\",\"why\":{\"reason\":\"absent\",\"path\":\"/none\"}}" }
{}

/// A line of the report is read as the value that was printed, if no number in it is past 64 bits. Before the line feed
/// that ends it, it has no control character.
#[tactic(auto, using(crate::proofs::ReadBack::row_reads_back, crate::proofs::ReadBack::kind_reads_back, crate::proofs::ReadBack::last_reads_back))]
pub fn lines_read_back()
    ensures records { (shown : Options) (tree : List Entry) (oldest : ℕ) (versions : List Version)
        (index : ℕ) (r : OneRecord) → FitsWords (row_json shown tree oldest versions index r)
        → ReadsBack (row_json shown tree oldest versions index r) }
    ensures kinds { (shown : Options) (tree : List Entry) (oldest : ℕ) (versions : List Version)
        (index count : ℕ) (r : OneRecord)
        → FitsWords (kind_at shown tree oldest versions index count r)
        → ReadsBack (kind_at shown tree oldest versions index count r) }
    ensures totals { (shown : Options) (tree : List Entry) (oldest : ℕ) (versions : List Version)
        (program : List ℕ) → FitsWords (last_json shown tree oldest versions program)
        → ReadsBack (last_json shown tree oldest versions program) }
{}
