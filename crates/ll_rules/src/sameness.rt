//! Layers that are the same.

ghost use Rattle.std.specs.Prelude.{◌≡◌, ℕ, List};
ghost use Rattle.std.specs.List.{AllZip};
ghost use Rattle.ll_rights.specs.{declared.fs.Fs.Fs as FsSet, declared.net.Net.Net as NetSet};
ghost use Rattle.ll_lines.specs.Paths.{Path};
ghost use Rattle.ll_tree.specs.Trees.{Entry};
ghost use Rattle.ll_rules.specs.declared.moves.Move.{Move as Attempt};
ghost use Rattle.ll_rules.specs.Layers.{RulesOn, with_file_rule, with_port_rule};
ghost use Rattle.ll_rules.specs.KeptLayers.{SameRules, GrantsOnPort};
ghost use Rattle.ll_rules.specs.InTree.{in_tree, all_in_tree};
ghost use Rattle.ll_rules.specs.Checks.{refusing, refusing_port, refusing_mount};
ghost use Rattle.ll_rules.specs.Moves.{move_verdict};

/// Being the same is an equivalence, and rules that are the same stay so with one more rule.
#[tactic(auto, using(crate::proofs::SameLayers::rules_alike), unfolding(crate::specs::KeptLayers::granted_on, crate::specs::Layers::granted_on_port))]
pub fn same_rules()
    ensures reflexive { (a : RulesOn Path) → SameRules a a }
    ensures symmetric { (a b : RulesOn Path) → SameRules a b → SameRules b a }
    ensures transitive { (a b c : RulesOn Path) → SameRules a b → SameRules b c → SameRules a c }
    ensures rule_more { (a b : RulesOn Path) (path : Path) (set : FsSet) → SameRules a b
        → SameRules (with_file_rule a path set) (with_file_rule b path set) }
    ensures port_rule_more { (a b : RulesOn Path) (port : ℕ) (set : NetSet) → SameRules a b
        → SameRules (with_port_rule a port set) (with_port_rule b port set) }
    ensures port_rule_in_tree { (tree : List Entry) (old new : RulesOn ℕ) (port : ℕ) (set : NetSet)
        → GrantsOnPort old new port set
        → SameRules (in_tree tree new) (with_port_rule (in_tree tree old) port set) }
{}

/// Domains whose layers are the same, one by one, refuse the same; paths do not count for ports and mounts.
#[tactic(auto, using(crate::proofs::SameLayers::answers_alike))]
pub fn same_answers()
    ensures path { (a b : List (RulesOn Path)) → AllZip SameRules a b
        → (path : Path) (wanted : FsSet) → refusing a path wanted ≡ refusing b path wanted }
    ensures port { (a b : List (RulesOn Path)) → AllZip SameRules a b → (port : ℕ) (wanted : NetSet)
        → refusing_port a port wanted ≡ refusing_port b port wanted }
    ensures mount { (a b : List (RulesOn Path)) → AllZip SameRules a b
        → refusing_mount a ≡ refusing_mount b }
    ensures move_answer { (tree : List Entry) (a b : List (RulesOn Path)) → AllZip SameRules a b
        → (attempt : Attempt) → move_verdict tree a attempt ≡ move_verdict tree b attempt }
    ensures port_in_tree { (tree : List Entry) (domain : List (RulesOn ℕ)) (port : ℕ)
        (wanted : NetSet)
        → refusing_port (all_in_tree tree domain) port wanted ≡ refusing_port domain port wanted }
    ensures mount_in_tree { (tree : List Entry) (domain : List (RulesOn ℕ))
        → refusing_mount (all_in_tree tree domain) ≡ refusing_mount domain }
{}
