//! What the calls for a small policy are, and what they are answered.
#![tactic(auto, unfolding(crate::specs::WorkedCalls::enforcing))]

ghost use Rattle.std.specs.Prelude.{◌≡◌, [], ◌∷◌, codes, Some, None};
ghost use Rattle.ll_rights.specs.declared.abi.Abi.TheVariants.{V1, V4, V5};
ghost use Rattle.ll_tree.specs.WorkedTree.{worked_tree};
ghost use Rattle.ll_rules.specs.declared.errno.Errno.TheVariants.{Inval};
ghost use Rattle.ll_trace.specs.declared.op.Op.TheVariants.{LeaveOutPath};
ghost use Rattle.ll_semantics.specs.declared.answer.Answer.TheVariants.{Allowed, Moot, Refused};
ghost use Rattle.ll_semantics.specs.Worlds.{judged};
ghost use Rattle.ll_fitting.specs.Fitting.{fitted};
ghost use Rattle.ll_enforcing.specs.Answered.{operations_of, taken_at, MayEnforce};
ghost use Rattle.ll_tree.specs.Trees.{root};
ghost use Rattle.ll_fitting.specs.Taken.{first_refused};
ghost use Rattle.ll_enforcing.specs.WorkedCalls.{small, small_operations, nowhere, confined, newer_on_a_file, directories_on_a_file, made_with, on_the_root, just_started};

/// Two layers: a group on a file is masked, a rule on a missing object is moot, and a rule that only a directory can
/// have is refused on a file.
pub fn worked_calls()
    ensures operations { operations_of worked_tree nowhere 3 (fitted V4 small) ≡ small_operations }
    ensures answers { judged worked_tree V4 confined ≡ Allowed ∷ Allowed ∷ Allowed ∷ Allowed
        ∷ Allowed ∷ Moot ∷ Refused Inval [] ∷ Allowed ∷ Allowed ∷ Allowed ∷ Allowed ∷ Allowed
        ∷ Allowed ∷ [] }
{}

/// A rule on a file that names only a right which an older version doesn't know, and lists others that only directories
/// can have: best effort leaves it out there, and so does what is fitted to that version. If it has the others alone, it
/// is refused in both.
pub fn worked_best_effort()
    ensures left_out { taken_at worked_tree nowhere 3 V1 V5 newer_on_a_file
        ≡ made_with (LeaveOutPath (codes "/b/g") ∷ []) }
    ensures none { operations_of worked_tree nowhere 3 (fitted V1 newer_on_a_file)
        ≡ made_with [] }
    ensures taken { first_refused (fitted V1 newer_on_a_file) ≡ None }
    ensures kept { taken_at worked_tree nowhere 3 V1 V5 directories_on_a_file
        ≡ operations_of worked_tree nowhere 3 (fitted V1 directories_on_a_file) }
    ensures refused { first_refused (fitted V1 directories_on_a_file)
        ≡ Some (record { layer = 0; rule = 0 }) }
{}

/// A process that has just started may enforce a policy with a rule on the root.
pub fn worked_start()
    ensures { MayEnforce (root ∷ []) nowhere 3 0 (fitted V1 on_the_root) just_started }
{}
