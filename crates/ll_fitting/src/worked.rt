//! What versions of the interface leave of small policies, and what is wrong with others.
#![tactic(auto, unfolding(crate::specs::WorkedPolicies::fitting))]

ghost use Rattle.std.specs.Prelude.{◌≡◌, [], ◌∷◌, ◌++◌, Some, None, replicate};
ghost use Rattle.ll_rights.specs.declared.abi.Abi.TheVariants.{V1, V2, V3, V4, V5};
ghost use Rattle.ll_rights.specs.Rights.{write_file, read_file, read_dir, remove_file, make_reg, refer, truncate};
ghost use Rattle.ll_rights.specs.NetRights.{connect_tcp};
ghost use Rattle.ll_fitting.specs.WorkedPolicies.{formats, handles_all, handling, connecting, scope_alone, lists, lists_on_ports, reading, on, of_group};
ghost use Rattle.ll_fitting.specs.WorkedPolicies.{directory, file, first_rights, left, left_handling, grants, grants_on_port};
ghost use Rattle.ll_fitting.specs.Fitting.{fitted};
ghost use Rattle.ll_fitting.specs.Taken.{first_refused};
ghost use Rattle.ll_fitting.specs.Misfits.{misfit};

use crate::policy::{Misfit, RuleMisfit};
use crate::refusing::RefusedRule;
use crate::written::Parent;

/// The policy of FORMATS: a group is what each version knows of it, and ports are known from version 4 on.
pub fn worked_versions()
    ensures v4 { fitted V4 formats
        ≡ left 0 (first_rights ++ refer ∷ truncate ∷ []) (connect_tcp ∷ [])
        (grants 0 (directory 1) reading ∷ grants 1 (directory 2) reading ∷ [])
        (grants_on_port 0 443 (connect_tcp ∷ []) ∷ []) ∷ [] }
    ensures v1 { fitted V1 formats
        ≡ left_handling first_rights
        (grants 0 (directory 1) reading ∷ grants 1 (directory 2) reading ∷ []) }
    ensures ports_alone { fitted V3 (connecting [] ∷ handles_all [] ∷ [])
        ≡ left 1 (first_rights ++ refer ∷ truncate ∷ []) [] [] [] ∷ [] }
    ensures rule_unknown { fitted V2 (handling (read_file ∷ truncate ∷ [])
        (on (lists (truncate ∷ []) []) (directory 1)
        ∷ on (lists (read_file ∷ []) []) (directory 1) ∷ []))
        ≡ left_handling (read_file ∷ []) (grants 1 (directory 1) (read_file ∷ []) ∷ []) }
{}

/// Rules on files and on objects that are missing, in a layer that handles reading or making files.
pub fn worked_rules()
    ensures group_on_a_file { fitted V1 (handling (read_file ∷ read_dir ∷ [])
        (on (lists [] reading) (file 1) ∷ []))
        ≡ left_handling (read_file ∷ read_dir ∷ []) (grants 0 (file 1) (read_file ∷ []) ∷ []) }
    ensures named_on_a_file { fitted V1 (handling (read_file ∷ read_dir ∷ [])
        (on (lists (read_dir ∷ []) (read_file ∷ [])) (file 1) ∷ []))
        ≡ left_handling (read_file ∷ read_dir ∷ [])
        (grants 0 (file 1) (read_file ∷ read_dir ∷ []) ∷ []) }
    ensures named_is_refused { first_refused (fitted V1 (handling (read_file ∷ read_dir ∷ [])
        (on (lists (read_file ∷ []) []) (file 1)
        ∷ on (lists (read_dir ∷ []) (read_file ∷ [])) (file 1) ∷ [])))
        ≡ Some (record { layer = 0; rule = 1 }) }
    ensures nothing_for_files { fitted V1 (handling (make_reg ∷ [])
        (on (lists [] (make_reg ∷ [])) (file 1)
        ∷ of_group (lists [] (make_reg ∷ [])) (file 1) ∷ []))
        ≡ left_handling (make_reg ∷ []) (grants 0 (file 1) (make_reg ∷ []) ∷ []) }
    ensures newer_for_files { fitted V1 (handling (truncate ∷ make_reg ∷ [])
        (on (lists (truncate ∷ []) (make_reg ∷ [])) (file 1)
        ∷ on (lists [] (make_reg ∷ [])) (file 1) ∷ []))
        ≡ left_handling (make_reg ∷ []) (grants 1 (file 1) (make_reg ∷ []) ∷ []) }
    ensures known_for_files { fitted V5 (handling (truncate ∷ make_reg ∷ [])
        (on (lists (truncate ∷ []) (make_reg ∷ [])) (file 1) ∷ []))
        ≡ left_handling (truncate ∷ make_reg ∷ []) (grants 0 (file 1) (truncate ∷ []) ∷ []) }
    ensures missing { fitted V1 (handling (read_file ∷ [])
        (on (lists (read_file ∷ []) []) Parent.Missing
        ∷ of_group (lists (read_file ∷ []) []) Parent.Missing ∷ []))
        ≡ left_handling (read_file ∷ []) (grants 0 Parent.Missing (read_file ∷ []) ∷ []) }
    ensures in_the_layer { fitted V5 (handling (write_file ∷ make_reg ∷ read_file ∷ [])
        (on (lists [] (write_file ∷ make_reg ∷ remove_file ∷ [])) (directory 1) ∷ []))
        ≡ left_handling (write_file ∷ make_reg ∷ read_file ∷ [])
        (grants 0 (directory 1) (write_file ∷ make_reg ∷ []) ∷ []) }
{}

/// What is wrong with policies.
pub fn worked_misfits()
    ensures nothing { misfit formats ≡ None }
    ensures no_layer { misfit [] ≡ Some Misfit.NoLayer }
    ensures sixteen { misfit (replicate 16 (handles_all [])) ≡ None }
    ensures seventeen { misfit (replicate 17 (handles_all [])) ≡ Some Misfit.TooManyLayers }
    ensures handles_nothing { misfit (handles_all [] ∷ handling [] [])
        ≡ Some (Misfit.HandlesNothing 1) }
    ensures scope_alone { misfit (scope_alone ∷ []) ≡ None }
    ensures not_handled { misfit (handling (read_file ∷ [])
        (on (lists (read_file ∷ []) []) (directory 1)
        ∷ on (lists (read_dir ∷ []) []) (directory 1) ∷ []))
        ≡ Some (Misfit.PathRule 0 1 RuleMisfit.NotHandled) }
    ensures grants_nothing { misfit (handling (read_file ∷ [])
        (on (lists [] (make_reg ∷ [])) (directory 1) ∷ []))
        ≡ Some (Misfit.PathRule 0 0 RuleMisfit.GrantsNothing) }
    ensures no_port { misfit (connecting (record {
      allowed = lists_on_ports (connect_tcp ∷ []);
      port = 65536;
    } ∷ []) ∷ []) ≡ Some (Misfit.PortRule 0 0 RuleMisfit.NoPort) }
{}
