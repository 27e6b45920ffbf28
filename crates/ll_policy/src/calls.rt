//! What holds of calls by their definitions: of sets of rights, and of moves.

ghost use Rattle.std.specs.Prelude.{◌≡◌, ◌&&◌, ℕ, Bool, true, false, List};
ghost use Rattle.ll_rights.specs.{declared.fs.Fs.Fs as FsSet};
ghost use Rattle.ll_rights.specs.Rights.{has, only, some_right};
ghost use Rattle.ll_rights.specs.Kinds.{remove_right_of};
ghost use Rattle.ll_lines.specs.Paths.{Path, front};
ghost use Rattle.ll_tree.specs.Trees.{Entry, path_at, kind_at};
ghost use Rattle.ll_tree.specs.{declared.place.NodeId.NodeId};
ghost use Rattle.ll_rules.specs.{declared.moves.Move.Move as Attempt, declared.moves.Target.Target as MoveTarget};
ghost use Rattle.ll_rules.specs.declared.moves.Target.TheVariants.{New, Over};
ghost use Rattle.ll_rules.specs.{Layers.RulesOn, LayerNumbers.is_among};
ghost use Rattle.ll_rules.specs.Checks.{refusing};
ghost use Rattle.ll_rules.specs.Moves.{move_verdict};
ghost use Rattle.ll_policy.specs.Verdicts.{AreAlike, stays, within_one_directory, lets_pass, lets_use, renaming, linking, exchanging};
ghost use Rattle.ll_rules.specs.InTree.{all_in_tree};
ghost use Rattle.ll_policy.specs.Moving.{GoesBy, about_moves, link_passes, rename_passes};

/// The layers that refuse a set of rights are those that refuse some right of it.
#[tactic(auto, using(crate::proofs::RightByRight::right_by_right))]
pub fn rights_are_refused_one_by_one()
    ensures { (domain : List (RulesOn Path)) (p : Path) (wanted : FsSet) (number : ℕ)
        → is_among number (refusing domain p wanted)
        ≡ some_right (λ right.
        has wanted right && is_among number (refusing domain p (only right))) }
{}

/// Moves that are alike have one verdict, also where each is made in a tree of its own, if both stay within a
/// directory or neither does. If one stays and the other doesn't, the verdicts differ only in what refuses moves between
/// directories.
#[tactic(auto, using(crate::proofs::MovesAlike::verdict_alike, crate::proofs::MovesAlike::verdict_where_one_stays))]
pub fn moves_alike_have_one_verdict()
    ensures same { (domain : List (RulesOn Path)) (tree : List Entry) (attempt : Attempt)
        (other_tree : List Entry) (other : Attempt) → AreAlike domain tree attempt other_tree other
        → stays tree attempt ≡ stays other_tree other
        → move_verdict tree domain attempt ≡ move_verdict other_tree domain other }
    ensures stays { (domain : List (RulesOn Path)) (tree : List Entry) (attempt : Attempt)
        (other_tree : List Entry) (other : Attempt) → AreAlike domain tree attempt other_tree other
        → stays tree attempt ≡ true → stays other_tree other ≡ false
        → move_verdict tree domain attempt
        ≡ within_one_directory (move_verdict other_tree domain other) }
{}

/// A rename passes where the link would pass and the object may be removed; onto an object that is there, where the
/// rename to a new name would pass and that object may be removed too; and an exchange passes where each object may be
/// moved onto the other.
#[tactic(auto, using(crate::proofs::PassingMoves::rename_parts, crate::proofs::PassingMoves::onto_parts, crate::proofs::PassingMoves::exchange_parts))]
pub fn moves_made_of_others()
    ensures rename { (domain : List (RulesOn Path)) (tree : List Entry) (moved : NodeId)
        (target : MoveTarget) → lets_pass domain tree (renaming moved target)
        ≡ (lets_pass domain tree (linking moved target)
        && lets_use domain (front (path_at tree moved))
        (remove_right_of (kind_at tree moved))) }
    ensures onto { (domain : List (RulesOn Path)) (tree : List Entry)
        (moved there directory : NodeId) → path_at tree directory ≡ front (path_at tree there)
        → lets_pass domain tree (renaming moved (Over there))
        ≡ (lets_pass domain tree (renaming moved (New directory))
        && lets_use domain (front (path_at tree there))
        (remove_right_of (kind_at tree there))) }
    ensures exchange { (domain : List (RulesOn Path)) (tree : List Entry) (one other : NodeId)
        → lets_pass domain tree (exchanging one other)
        ≡ (lets_pass domain tree (renaming one (Over other))
        && lets_pass domain tree (renaming other (Over one))) }
{}

/// A move from one directory of a tree to another passes exactly if it does by the chains of rules on three ways up: from
/// the object, from the directory that it leaves, and from the one that it comes to.
#[tactic(auto, using(crate::proofs::ChainMoves::link_by_chains, crate::proofs::ChainMoves::rename_by_chains))]
pub fn moves_pass_by_ways_up()
    ensures link { (tree : List Entry) (layers : List (RulesOn ℕ)) (moved directory : NodeId)
        (object from to : List ℕ) → GoesBy tree layers moved directory object from to
        → lets_pass (all_in_tree tree layers) tree (linking moved (New directory))
        ≡ link_passes (about_moves (kind_at tree moved) layers) object from to }
    ensures rename { (tree : List Entry) (layers : List (RulesOn ℕ)) (moved directory : NodeId)
        (object from to : List ℕ) → GoesBy tree layers moved directory object from to
        → lets_pass (all_in_tree tree layers) tree (renaming moved (New directory))
        ≡ rename_passes (about_moves (kind_at tree moved) layers) object from to }
{}
