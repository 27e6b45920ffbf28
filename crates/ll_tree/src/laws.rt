//! Laws on the definitions: for every tree file, and for a small one.

ghost use Rattle.std.specs.Prelude.{◌≡◌, [], ◌∷◌, ◌++◌, codes, Some, None};
ghost use Rattle.ll_lines.specs.{Paths.path_of, LineByLine.ReadsInOneWay};
ghost use Rattle.ll_tree.specs.Trees.{place};
ghost use Rattle.ll_tree.specs.TreeReading.{IsTreeOf, tree_format};
ghost use Rattle.ll_tree.specs.WorkedTree.{line, worked_file, worked_entries, worked_tree, ReadsAs, IsRefused};

use crate::place::Place;
use ll_lines::Cause;

/// A tree file either is one tree or has one first fault, and never both.
#[tactic(auto, using(crate::proofs::TreeLines::in_one_way))]
pub fn a_tree_file_reads_in_one_way()
    ensures { ReadsInOneWay tree_format IsTreeOf }
{}

/// What a small tree file and some faulty ones read as.
pub fn worked_files()
    ensures reads { ReadsAs worked_file worked_entries }
    ensures empty { ReadsAs [] [] }
    ensures alone { IsRefused (codes "{\"path\":\"/a/f\",\"kind\":\"reg\"}") 1 Cause.NoParent }
    ensures no_slash { IsRefused (codes "{\"path\":\"a\",\"kind\":\"dir\"}") 1 Cause.BadPath }
    ensures two_slashes { IsRefused
        (codes "{\"path\":\"/a//b\",\"kind\":\"dir\"}") 1 Cause.BadPath }
    ensures no_kind { IsRefused (codes "{\"path\":\"/a\"}") 1 Cause.Field }
    ensures the_root { IsRefused (codes "{\"path\":\"/\",\"kind\":\"dir\"}") 1 Cause.Twice }
    ensures twice { IsRefused (line (codes "{\"path\":\"/a\",\"kind\":\"dir\"}")
        ++ line (codes "{\"path\":\"/a\",\"kind\":\"dir\"}")) 2 Cause.Twice }
    ensures in_a_file { IsRefused (line (codes "{\"path\":\"/f\",\"kind\":\"reg\"}")
        ++ line (codes "{\"path\":\"/f/g\",\"kind\":\"reg\"}")) 2 Cause.NoParent }
    ensures after_a_blank { IsRefused (line [] ++ line (codes "[]")) 2 Cause.Field }
    ensures not_text { IsRefused (255 ∷ []) 1 Cause.Json }
{}

/// What texts name in the tree of the small file.
#[tactic(auto, unfolding(crate::specs::WorkedTree::resolving))]
pub fn worked_places()
    ensures root { place worked_tree (codes "/") ≡ Place.Node (record { 0 = 0 }) }
    ensures node { place worked_tree (codes "/dev/tty") ≡ Place.Node (record { 0 = 7 }) }
    ensures gap_in_the_root { place worked_tree (codes "/none") ≡ Place.Gap (record { 0 = 0 }) }
    ensures gap { place worked_tree (codes "/a/s/x") ≡ Place.Gap (record { 0 = 3 }) }
    ensures missing_above { place worked_tree (codes "/none/x") ≡ Place.Nowhere }
    ensures in_a_file { place worked_tree (codes "/a/f/x") ≡ Place.Nowhere }
    ensures no_path { place worked_tree (codes "/a/") ≡ Place.Nowhere }
    ensures dots { path_of (codes "/a/..") ≡ None }
    ensures three_dots { path_of (codes "/a/...") ≡ Some (codes "a" ∷ codes "..." ∷ []) }
{}
