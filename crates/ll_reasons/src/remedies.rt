//! What holds of the rights that an explanation names.

ghost use Rattle.std.specs.Prelude.{◌≡◌, ℕ, ◌+◌, Bool, false, not, ◌&&◌, ◌||◌, List, nat_eq, slice_set};
ghost use Rattle.std.specs.List.{list_any};
ghost use Rattle.ll_rights.specs.{declared.fs.Fs.Fs, declared.kind.Kind.Kind, declared.net.Net.Net};
ghost use Rattle.ll_rights.specs.Rights as files;
ghost use Rattle.ll_rights.specs.NetRights as network;
ghost use Rattle.ll_lines.specs.Paths.{Path};
ghost use Rattle.ll_tree.specs.Trees.{Entry, is_dir};
ghost use Rattle.ll_rules.specs.declared.moves.Move.{Move};
ghost use Rattle.ll_rules.specs.Layers.{handles, granted, granted_on_port};
ghost use Rattle.ll_rules.specs.Checks.{lacks, lacks_on_port, numbers_where};
ghost use Rattle.ll_rules.specs.Moves.{denies, holds_back};
ghost use Rattle.ll_semantics.specs.States.{Layer};
ghost use Rattle.ll_reasons.specs.Objections.{missing_rights, closed_rights, gained_rights, on_path, on_port, on_directories, on_crossing};
ghost use Rattle.ll_reasons.specs.Remedies.{all_satisfied};

/// Each right that is named of a layer is asked, handled and not granted there, or would be gained, and every such
/// right is named.
pub fn named_rights_are_needed()
    ensures files { (layer : Layer) (path : Path)
        (asked : files.FsRight → Bool) (right : files.FsRight)
        → list_any (files.is_right right) (missing_rights layer path asked)
        ≡ (asked right && handles layer right && not (granted layer path right)) }
    ensures ports { (layer : Layer) (port : ℕ)
        (asked : network.NetRight → Bool) (right : network.NetRight)
        → list_any (network.is_right right) (closed_rights layer port asked)
        ≡ (asked right && network.has layer.handled_network right
        && not (granted_on_port layer port right)) }
    ensures gains { (layer : Layer) (kind : Kind) (object directory : Path) (right : files.FsRight)
        → list_any (files.is_right right) (gained_rights layer kind object directory)
        ≡ (granted layer directory right
        && (handles layer right && (is_dir kind || files.is_file_right right))
        && not (granted layer object right)) }
{}

/// With rules that grant what is named, a layer is no longer among those that refuse with the same error. (A move
/// that is no longer denied may still be held back.)
pub fn granting_what_is_named_is_enough()
    ensures path { (layer : Layer) (path : Path) (wanted : Fs)
        → lacks (all_satisfied layer (on_path path (files.has wanted) layer)) path wanted ≡ false }
    ensures port { (layer : Layer) (port : ℕ) (wanted : Net)
        → lacks_on_port (all_satisfied layer (on_port port wanted layer)) port wanted ≡ false }
    ensures denied { (tree : List Entry) (move : Move) (layer : Layer)
        → denies tree move (all_satisfied layer (on_directories tree move layer)) ≡ false }
    ensures held_back { (tree : List Entry) (move : Move) (layer : Layer)
        → holds_back tree move (all_satisfied layer (on_crossing tree move layer)) ≡ false }
{}

/// In a domain, a layer that no longer lacks what is tested, in place of one that did, is not among the layers that
/// refuse: whatever the test, so for paths, ports and moves.
#[tactic(auto, using(crate::proofs::InDomain::not_refusing))]
pub fn satisfied_layers_do_not_refuse()
    ensures { (test : Layer → Bool) (domain : List Layer) (index : ℕ) (layer : Layer)
        → test layer ≡ false
        → list_any (nat_eq (index + 1)) (numbers_where test (slice_set domain index layer))
        ≡ false }
{}
