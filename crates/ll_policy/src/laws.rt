//! What holds of layers by their definitions.

ghost use Rattle.std.specs.Prelude.{◌≡◌, ◌↔◌, ◌<◌, ℕ, Bool, true, false, [], ◌∷◌, List, All, Option, Vec, length, map};
ghost use Rattle.std.specs.{Global.Global, List.AllZip, List.Contains};
ghost use Rattle.ll_rights.specs.Rights as files;
ghost use Rattle.ll_rights.specs.{declared.fs.Fs.Fs as FsSet, Rights.FsRight, Rights.only};
ghost use Rattle.ll_rights.specs.NetRights as network;
ghost use Rattle.ll_lines.specs.Paths.{Path};
ghost use Rattle.ll_tree.specs.Trees.{Entry, IsNode, path_at};
ghost use Rattle.ll_tree.specs.{TreeFacts.IsTree, declared.place.NodeId.NodeId};
ghost use Rattle.ll_rules.specs.{declared.moves.Move.Move as Attempt, Layers.RulesOn};
ghost use Rattle.ll_rules.specs.declared.moves.Verdict.TheVariants.{Passed, Refused};
ghost use Rattle.ll_rules.specs.declared.errno.Errno.TheVariants.{XDev};
ghost use Rattle.ll_tree.specs.WorkedTree.{worked_tree};
ghost use Rattle.ll_rules.specs.WorkedRules.{linked, file_a_f, dir_b};
ghost use Rattle.ll_policy.specs.WorkedPolicies.{both, stricter};
ghost use Rattle.ll_rules.specs.InTree.{all_in_tree, IsTargetIn};
ghost use Rattle.ll_rules.specs.{Checks.refusing, Checks.refusing_port, Moves.move_verdict};
ghost use Rattle.ll_policy.specs.Chains.{Granting, IsChain, IsExcess, NothingMore, NothingMoreThan, Tells, passes};
ghost use Rattle.ll_policy.specs.Choices.{enough_of};
ghost use Rattle.ll_policy.specs.Granted.{granting, granting_on_ports, root, NothingMoreOnObjects};
ghost use Rattle.ll_policy.specs.Regions.{single};
ghost use Rattle.ll_policy.specs.Gains.{AllKeepGains, TellsGain};
ghost use Rattle.ll_policy.specs.{declared.gaining.Gain.Gain as Gained};
ghost use Rattle.ll_policy.specs.Found.{OfLayers, is_nothing};
ghost use Rattle.ll_policy.specs.WaysUp.{AreRuledIn, IsTargetOf, all_ruled, is_file_at, way_up};

/// Old layers are compared one by one, and there is an excess of none of which new layers let nothing more pass.
#[tactic(auto, using(crate::proofs::LawLemmas::by_layers, crate::proofs::LawLemmas::excess_is_more))]
pub fn layers_are_compared_one_by_one()
    ensures all { (is_file : ℕ → Bool) (always : List ℕ) (old new : List Granting)
        → NothingMore is_file always old new
        ↔ All (λ layer. NothingMoreThan is_file always layer new) old }
    ensures excess { (is_file : ℕ → Bool) (always : List ℕ) (old : Granting) (new : List Granting)
        (chain : List ℕ) → IsExcess is_file always old new chain
        → NothingMoreThan is_file always old new → ⊥ }
{}

/// An object that is told as enough by itself makes a chain with the root that new layers let pass and the old one
/// doesn't.
pub fn single_objects_are_enough()
    ensures { (is_file : ℕ → Bool) (count object : ℕ) (old : Granting) (new : List Granting)
        → is_file 0 ≡ false → Contains (enough_of count old new) object
        → IsExcess is_file root old new (0 ∷ object ∷ []) }
{}

/// The way up from an object of a tree is a chain with the root on it, whichever nodes are asked about. Layers let it
/// pass with a right exactly if none of them refuses the right on the path.
#[tactic(auto, using(crate::proofs::Bridge::way_up_chain, crate::proofs::Bridge::way_up_begins, crate::proofs::Bridge::refuses_on_way))]
pub fn ways_up_are_chains()
    ensures chain { (tree : List Entry) (nodes : List ℕ) (object : NodeId) → IsTree tree
        → All (λ number. number < length tree) nodes → IsNode tree object
        → IsChain (is_file_at tree) (way_up tree nodes (path_at tree object)) }
    ensures root { (tree : List Entry) (nodes : List ℕ) (path : Path) → IsTree tree
        → All (Contains (way_up tree nodes path)) root }
    ensures passes { (tree : List Entry) (layers : List (RulesOn ℕ)) (path : Path) (right : FsRight)
        → (passes (map (granting right) layers) (way_up tree (all_ruled layers) path) ≡ true)
        ↔ (refusing (all_in_tree tree layers) path (only right) ≡ []) }
{}

/// If new layers let nothing more pass over objects than old ones, then whatever rights are asked on whatever object of
/// whatever tree, no old layer refuses what no new one refuses: wherever the objects with rules have been moved.
#[tactic(auto, using(crate::proofs::Everywhere::refuses_no_more_anywhere))]
pub fn nothing_more_in_any_tree()
    ensures { (is_file : ℕ → Bool) (old new : List (RulesOn ℕ))
        → NothingMoreOnObjects is_file old new → (tree : List Entry)
        → AreRuledIn is_file old new tree → (object : NodeId) → IsNode tree object
        → (wanted : FsSet) → refusing (all_in_tree tree new) (path_at tree object) wanted ≡ []
        → refusing (all_in_tree tree old) (path_at tree object) wanted ≡ [] }
{}

/// If, beside that, whatever an object gains in an old layer it gains in some new one, then no move that passes the new
/// layers is refused by the old ones: in whatever tree, and whether it renames, exchanges or links.
#[tactic(auto, using(crate::proofs::Everywhere::passes_no_more_anywhere))]
pub fn no_move_passes_more()
    ensures { (is_file : ℕ → Bool) (old new : List (RulesOn ℕ))
        → NothingMoreOnObjects is_file old new → AllKeepGains is_file old new
        → (tree : List Entry) → AreRuledIn is_file old new tree → (attempt : Attempt)
        → IsNode tree attempt.moved → IsTargetIn tree attempt.target
        → IsTargetOf tree attempt.target
        → move_verdict tree (all_in_tree tree new) attempt ≡ Passed
        → move_verdict tree (all_in_tree tree old) attempt ≡ Passed }
{}

/// In any tree a right passes in a region exactly if no layer refuses it on an object of the region: one with the same
/// objects with rules on its way up.
#[tactic(auto, using(crate::proofs::Alike::refused_in_region))]
pub fn regions_stand_for_their_objects()
    ensures { (tree : List Entry) (layers : List (RulesOn ℕ)) (nodes chain : List ℕ) (path : Path)
        (right : FsRight) → All (Contains nodes) (all_ruled layers)
        → All (Contains chain) (way_up tree nodes path)
        → All (Contains (way_up tree nodes path)) chain
        → (passes (map (granting right) layers) chain ≡ true)
        ↔ (refusing (all_in_tree tree layers) path (only right) ≡ []) }
{}

/// A right passes on a port exactly if no layer refuses it there; ports on which no layer has a rule are alike.
#[tactic(auto, using(crate::proofs::PortByPort::refused_on_port))]
pub fn ports_are_refused_one_by_one()
    ensures { (layers : List (RulesOn ℕ)) (right : network.NetRight) (port : ℕ)
        → (passes (map (granting_on_ports right) layers) (single port) ≡ true)
        ↔ (refusing_port layers port (network.only right) ≡ []) }
{}

/// Nothing is found with any right exactly if new layers let nothing more pass on objects, and if they keep all gains.
#[tactic(auto, using(crate::proofs::Nothing::nothing_on_objects, crate::proofs::Nothing::nothing_gained))]
pub fn nothing_is_found_where_there_is_nothing_more()
    ensures objects { (is_file : ℕ → Bool) (old new : List (RulesOn ℕ))
        (found : List (Vec (Option (Vec ℕ Global)) Global))
        → AllZip (OfLayers (Tells is_file root) old new) files.all_rights found
        → (is_nothing found ≡ true) ↔ NothingMoreOnObjects is_file old new }
    ensures gains { (is_file : ℕ → Bool) (old new : List (RulesOn ℕ))
        (found : List (Vec (Option Gained) Global))
        → AllZip (OfLayers (TellsGain is_file) old new) files.all_rights found
        → (is_nothing found ≡ true) ↔ AllKeepGains is_file old new }
{}

/// Policies that let the same chains pass, each way, may answer a move differently. One layer more that grants execution
/// in a directory, beside a layer that grants it nowhere, lets nothing more be executed; but a file gains the right in
/// that layer by a link to the directory, and gains it in no other.
#[tactic(auto, unfolding(ll_rules::specs::WorkedRules::checking))]
pub fn equal_policies_may_move_apart()
    ensures forth { (is_file : ℕ → Bool) → NothingMoreOnObjects is_file both stricter }
    ensures back { (is_file : ℕ → Bool) → NothingMoreOnObjects is_file stricter both }
    ensures refused { move_verdict worked_tree (all_in_tree worked_tree both)
        (linked file_a_f dir_b) ≡ Refused XDev (1 ∷ []) }
    ensures passed { move_verdict worked_tree (all_in_tree worked_tree stricter)
        (linked file_a_f dir_b) ≡ Passed }
{}
